//! The Commissioning command.

ghost use Rattle.std.specs.Prelude.{◌≡◌, ◌≤◌, length, OnOk};
ghost use Rattle.gp_base.specs.Field.{Adds};
ghost use Rattle.gp_base.specs.Table.{answer};
ghost use Rattle.gp_base.specs.Walk.{TakesTo};
ghost use Rattle.gp_commands.specs.Inside.{header_at, commissioning_in_parts, header_octets};
ghost use Rattle.gp_commands.specs.Commissioning.{keying_place, commissioning_reason, commissioning_at, commissioning, HasCommissioningWidths};

use crate::application::{add_application, application_agrees, take_application};
use crate::command::{CommandReason, Commissioning, short};
use crate::keying::{Keying, Wanted, add_keying, reserved_reason, take_keying};
use gp_base::field::{NoRoom, Short, add, add_octet, add_octet_if, is_set, octet, octet_if, rest};
use gp_base::{Octets, Reader};

/// What stands before the keys.
#[derive(Clone, Copy, Debug)]
struct Header {
    device: u8,
    options: u8,
    extended: Option<u8>,
}

/// Takes the header.
fn take_header(reader: &mut Reader) -> Result<Header, Short>
    requires { reader.old.place ≡ 1 }
    ensures { TakesTo (keying_place reader.old.octets) (header_at reader.old.octets) reader.old reader.new result }
{
    let device = octet(reader)?;
    let options = octet(reader)?;
    let extended = octet_if(reader, is_set(options, 128))?;
    Ok(Header {
        device,
        options,
        extended,
    })
}

/// Which of key, MIC and counter the extended options say to be there.
fn wanted_by(extended: u8) -> Wanted
    ensures { result ≡ Rattle.gp_commands.specs.Commissioning.wanted_by extended }
{
    let key = is_set(extended, 32);
    Wanted {
        key,
        mic: key && is_set(extended, 64),
        counter: is_set(extended, 128),
    }
}

/// Reads a Commissioning after its identifier.
#[tactic(auto, using(crate::proofs::Places::application_end_above))]
pub(crate) fn read_commissioning(
    octets: &[u8],
    reader: &mut Reader,
) -> Result<Commissioning, CommandReason>
    requires same { reader.old.octets ≡ octets.now }
    requires place { reader.old.place ≡ 1 }
    requires room { length octets.now ≤ 117 }
    ensures { result ≡ answer (commissioning_reason octets.now) (commissioning_at octets.now) }
{
    let Ok(header) = take_header(reader) else {
        return Err(short(octets));
    };
    let extended = header.extended.unwrap_or(0);
    if let Some(reason) = reserved_reason(extended % 4, extended / 4 % 8) {
        return Err(reason);
    }
    let Ok(keying) = take_keying(reader, wanted_by(extended)) else {
        return Err(short(octets));
    };
    let Ok(application) = take_application(reader, header.options) else {
        return Err(short(octets));
    };
    Ok(Commissioning {
        device: header.device,
        options: header.options,
        extended: header.extended,
        key: keying.key,
        key_mic: keying.mic,
        counter: keying.counter,
        application: application.information,
        manufacturer: application.manufacturer,
        model: application.model,
        commands: application.commands,
        clusters: application.clusters,
        rest: rest(reader),
    })
}

/// Whether each field is there exactly where its flag says so, and the clusters are as many as their first octet
/// says.
pub(crate) fn fields_agree(command: &Commissioning) -> bool
    ensures { result ≡ Rattle.gp_commands.specs.Commissioning.fields_agree command.now }
{
    security_agrees(command) && application_agrees(command)
}

/// Whether the extended options, the key, its MIC and the counter are there where their flags say so, and neither
/// the level nor the kind of key is reserved.
fn security_agrees(command: &Commissioning) -> bool
    ensures { result ≡ Rattle.gp_commands.specs.Commissioning.security_agrees command.now }
{
    let extended = command.extended.unwrap_or(0);
    let wanted = wanted_by(extended);
    command.extended.is_some() == is_set(command.options, 128)
        && reserved_reason(extended % 4, extended / 4 % 8).is_none()
        && command.key.is_some() == wanted.key
        && command.key_mic.is_some() == wanted.mic
        && command.counter.is_some() == wanted.counter
}

/// Adds a Commissioning without its identifier.
pub(crate) fn add_commissioning(out: &mut Octets, command: &Commissioning) -> Result<(), NoRoom>
    ensures added { Adds (commissioning command.now) out.old out.new result }
    ensures widths { OnOk result (HasCommissioningWidths command.now) }
{
    add_parts(out, command)
}

/// Adds its three parts and the rest.
fn add_parts(out: &mut Octets, command: &Commissioning) -> Result<(), NoRoom>
    ensures added { Adds (commissioning_in_parts command.now) out.old out.new result }
    ensures widths { OnOk result (HasCommissioningWidths command.now) }
{
    add_header(out, command)?;
    add_keying(
        out,
        Keying {
            key: command.key,
            mic: command.key_mic,
            counter: command.counter,
        },
    )?;
    add_application(out, command)?;
    add(out, command.rest.as_slice())
}

/// Adds the header.
#[tactic(auto, unfolding(crate::specs::Inside::header_octets))]
fn add_header(out: &mut Octets, command: &Commissioning) -> Result<(), NoRoom>
    ensures { Adds (header_octets command.now) out.old out.new result }
{
    add_octet(out, command.device)?;
    add_octet(out, command.options)?;
    add_octet_if(out, command.extended)
}
