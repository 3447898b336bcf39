//! Proxy Commissioning Mode.

ghost use Rattle.std.specs.Prelude.{◌≡◌, ◌≤◌, length, OnOk};
ghost use Rattle.gp_base.specs.Field.{Adds};
ghost use Rattle.gp_base.specs.Table.{answer};
ghost use Rattle.gp_base.specs.Walk.{TakesTo};
ghost use Rattle.gp_cluster.specs.ProxyMode as words;
ghost use Rattle.gp_cluster.specs.ProxyMode.{proxy_mode_reason, proxy_mode_at, HasProxyModeWidths};

use crate::field::surplus;
use crate::message::{ClusterReason, ProxyMode, short};
use crate::options::ModeOptions;
use gp_base::field::{
    NoRoom, Short, add_number16_if, add_octet, add_octet_if, number16_if, octet, octet_if,
};
use gp_base::{Octets, Reader};

/// Reads a Proxy Commissioning Mode after its header.
pub(crate) fn read_mode(octets: &[u8], reader: &mut Reader) -> Result<ProxyMode, ClusterReason>
    requires same { reader.old.octets ≡ octets.now }
    requires place { reader.old.place ≡ 3 }
    requires room { length octets.now ≤ 127 }
    ensures { result ≡ answer (proxy_mode_reason octets.now) (proxy_mode_at octets.now) }
{
    let Ok(message) = take_mode(reader) else {
        return Err(short(octets));
    };
    if let Some(reason) = surplus(octets, reader) {
        return Err(reason);
    }
    Ok(message)
}

/// Takes options, window and channel.
fn take_mode(reader: &mut Reader) -> Result<ProxyMode, Short>
    requires place { reader.old.place ≡ 3 }
    ensures { TakesTo (words.proxy_mode_end reader.old.octets)
        (proxy_mode_at reader.old.octets) reader.old reader.new result }
{
    let options = octet(reader)?;
    let window = number16_if(reader, ModeOptions(options).has_window())?;
    let channel = octet_if(reader, ModeOptions(options).has_channel())?;
    Ok(ProxyMode {
        options,
        window,
        channel,
    })
}

/// Whether window and channel are there where their bits say so.
pub(crate) fn mode_agrees(message: &ProxyMode) -> bool
    ensures { result ≡ words.proxy_mode_agrees message.now }
{
    message.window.is_some() == ModeOptions(message.options).has_window()
        && message.channel.is_some() == ModeOptions(message.options).has_channel()
}

/// Adds a Proxy Commissioning Mode without its header.
#[tactic(auto, unfolding(crate::specs::ProxyMode::proxy_mode))]
pub(crate) fn add_mode(out: &mut Octets, message: &ProxyMode) -> Result<(), NoRoom>
    ensures added { Adds (words.proxy_mode message.now) out.old out.new result }
    ensures widths { OnOk result (HasProxyModeWidths message.now) }
{
    add_octet(out, message.options)?;
    add_number16_if(out, message.window)?;
    add_octet_if(out, message.channel)
}
