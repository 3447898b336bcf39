//! Pairing.

ghost use Rattle.std.specs.Prelude.{◌≡◌, ◌≤◌, length, OnOk};
ghost use Rattle.gp_base.specs.Field.{Adds};
ghost use Rattle.gp_base.specs.Table.{answer};
ghost use Rattle.gp_base.specs.Walk.{IsWithin, TakesTo};
ghost use Rattle.gp_cluster.specs.Inside.{route_octets, HasRouteWidths, extras_octets, HasExtrasWidths, pairing_in_parts};
ghost use Rattle.gp_cluster.specs.Pairing as words;
ghost use Rattle.gp_cluster.specs.Pairing.{route_end, route_at, extras_end, extras_at, pairing_reason, pairing_at, HasPairingWidths};

use crate::field::{add_number24, add_sink_if, number24, sink_if, surplus};
use crate::message::{ClusterReason, Pairing, short};
use crate::options::{PairingOptions, application_id};
use gp_base::field::{
    NoRoom, Short, add_key_if, add_number16_if, add_number32_if, add_octet_if, add_src, key_if,
    number16_if, number32_if, octet_if, src,
};
use gp_base::{Key, Octets, Reader, Src};
use std::marker::Model;

/// The device, and where its frames are to go.
#[derive(Debug, Drop)]
pub(crate) struct Route {
    pub src: Src,
    pub sink: Option<(u64, u16)>,
    pub group: Option<u16>,
    pub device: Option<u8>,
}

impl Model for Route {
    ghost use Rattle.gp_cluster.specs.Pairing.{Route as Told};

    ghost Value = { Told };

    ghost view = { λ r. record { src = r.src; sink = r.sink; group = r.group; device = r.device } };
}

/// What a Pairing may tell besides.
#[derive(Debug, Drop)]
pub(crate) struct Extras {
    pub counter: Option<u32>,
    pub key: Option<Key>,
    pub alias: Option<u16>,
    pub radius: Option<u8>,
}

impl Model for Extras {
    ghost use Rattle.gp_cluster.specs.Pairing.{Extras as Told};

    ghost Value = { Told };

    ghost view = { λ e. record { counter = e.counter; key = e.key; alias = e.alias; radius = e.radius } };
}

/// Takes the device, and where its frames are to go.
#[tactic(auto, unfolding(crate::specs::Pairing::route_end, crate::specs::Pairing::route_at))]
fn take_route(reader: &mut Reader, options: PairingOptions) -> Result<Route, Short>
    requires { reader.old.place ≡ 6 }
    ensures { TakesTo (route_end options.0) (route_at options.0 reader.old.octets) reader.old reader.new result }
{
    let src = src(reader)?;
    let sink = sink_if(reader, options.has_sink())?;
    let group = number16_if(reader, options.has_group())?;
    let device = octet_if(reader, options.adds_sink())?;
    Ok(Route {
        src,
        sink,
        group,
        device,
    })
}

/// Takes counter, key, alias and radius.
#[tactic(auto, unfolding(crate::specs::Pairing::extras_end, crate::specs::Pairing::extras_at))]
fn take_extras(reader: &mut Reader, options: PairingOptions) -> Result<Extras, Short>
    requires { IsWithin reader.old }
    ensures { TakesTo (extras_end options.0 reader.old.place)
        (extras_at options.0 reader.old.octets reader.old.place) reader.old reader.new result }
{
    let counter = number32_if(reader, options.has_counter())?;
    let key = key_if(reader, options.has_key())?;
    let alias = number16_if(reader, options.has_alias())?;
    let radius = octet_if(reader, options.has_radius())?;
    Ok(Extras {
        counter,
        key,
        alias,
        radius,
    })
}

/// Why the options of a Pairing are refused: another ApplicationID, or neither RemoveGPD nor a mode.
fn options_reason(options: PairingOptions) -> Option<ClusterReason>
    ensures { result ≡ words.options_reason options.0 }
{
    if application_id(options.0) != 0 {
        return Some(ClusterReason::AppId { place: 3 });
    }
    if options.lacks_mode() {
        return Some(ClusterReason::Mode { place: 3 });
    }
    None
}

/// Reads a Pairing after its header.
#[tactic(auto, using(crate::proofs::Places::extras_end_above))]
pub(crate) fn read_pairing(octets: &[u8], reader: &mut Reader) -> Result<Pairing, ClusterReason>
    requires same { reader.old.octets ≡ octets.now }
    requires place { reader.old.place ≡ 3 }
    requires room { length octets.now ≤ 127 }
    ensures { result ≡ answer (pairing_reason octets.now) (pairing_at octets.now) }
{
    let Ok(options) = number24(reader) else {
        return Err(short(octets));
    };
    if let Some(reason) = options_reason(PairingOptions(options)) {
        return Err(reason);
    }
    let Ok(route) = take_route(reader, PairingOptions(options)) else {
        return Err(short(octets));
    };
    let Ok(extras) = take_extras(reader, PairingOptions(options)) else {
        return Err(short(octets));
    };
    if let Some(reason) = surplus(octets, reader) {
        return Err(reason);
    }
    Ok(Pairing {
        options,
        src: route.src,
        sink: route.sink,
        group: route.group,
        device: route.device,
        counter: extras.counter,
        key: extras.key,
        alias: extras.alias,
        radius: extras.radius,
    })
}

/// Whether the options fit three octets, and each field is there exactly where they say so.
pub(crate) fn pairing_agrees(message: &Pairing) -> bool
    ensures { result ≡ words.pairing_agrees message.now }
{
    message.options < 0x100_0000 && route_agrees(message) && extras_agree(message)
}

/// Whether the options are those of a Pairing, and where the frames go is there where they say so.
fn route_agrees(message: &Pairing) -> bool
    ensures { result ≡ words.route_agrees message.now }
{
    let options = PairingOptions(message.options);
    application_id(message.options) == 0
        && !options.lacks_mode()
        && message.sink.is_some() == options.has_sink()
        && message.group.is_some() == options.has_group()
        && message.device.is_some() == options.adds_sink()
}

/// Whether counter, key, alias and radius are there where the options say so.
fn extras_agree(message: &Pairing) -> bool
    ensures { result ≡ words.extras_agree message.now }
{
    let options = PairingOptions(message.options);
    message.counter.is_some() == options.has_counter()
        && message.key.is_some() == options.has_key()
        && message.alias.is_some() == options.has_alias()
        && message.radius.is_some() == options.has_radius()
}

/// Adds a Pairing without its header.
pub(crate) fn add_pairing(out: &mut Octets, message: &Pairing) -> Result<(), NoRoom>
    ensures added { Adds (words.pairing message.now) out.old out.new result }
    ensures widths { OnOk result (HasPairingWidths message.now) }
{
    add_parts(out, message)
}

/// Adds its parts.
fn add_parts(out: &mut Octets, message: &Pairing) -> Result<(), NoRoom>
    ensures added { Adds (pairing_in_parts message.now) out.old out.new result }
    ensures widths { OnOk result (HasPairingWidths message.now) }
{
    add_number24(out, message.options)?;
    add_route(
        out,
        Route {
            src: message.src,
            sink: message.sink,
            group: message.group,
            device: message.device,
        },
    )?;
    add_extras(
        out,
        Extras {
            counter: message.counter,
            key: message.key,
            alias: message.alias,
            radius: message.radius,
        },
    )
}

/// Adds the device, and where its frames are to go.
#[tactic(auto, unfolding(crate::specs::Inside::route_octets))]
fn add_route(out: &mut Octets, route: Route) -> Result<(), NoRoom>
    ensures added { Adds (route_octets route) out.old out.new result }
    ensures widths { OnOk result (HasRouteWidths route) }
{
    add_src(out, route.src)?;
    add_sink_if(out, route.sink)?;
    add_number16_if(out, route.group)?;
    add_octet_if(out, route.device)
}

/// Adds counter, key, alias and radius.
#[tactic(auto, unfolding(crate::specs::Inside::extras_octets))]
fn add_extras(out: &mut Octets, extras: Extras) -> Result<(), NoRoom>
    ensures added { Adds (extras_octets extras) out.old out.new result }
    ensures widths { OnOk result (HasExtrasWidths extras) }
{
    add_number32_if(out, extras.counter)?;
    add_key_if(out, extras.key)?;
    add_number16_if(out, extras.alias)?;
    add_octet_if(out, extras.radius)
}
