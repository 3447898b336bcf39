//! Octets are read as a command.

ghost use Rattle.std.specs.Prelude.{◌≡◌, ◌≤◌, length, drop, IfOk, IfErr, Some, Ok, Err};
ghost use Rattle.gp_commands.specs.declared.command.GpdCommand.{GpdCommand};
ghost use Rattle.gp_commands.specs.declared.command.CommandReason.{CommandReason};
ghost use Rattle.gp_base.specs.Field.{octet_at};
ghost use Rattle.gp_base.specs.Table.{answer};
ghost use Rattle.gp_commands.specs.Command.{Command, ends_before, first_reason, reading};

use crate::command::{CommandReason, GpdCommand, short};
use crate::commissioning::read_commissioning;
use crate::form::{Form, form_of};
use crate::level::{read_move, read_step};
use crate::reply::read_reply;
use crate::report::read_report;
use gp_base::field::{octet, rest};
use gp_base::{Octets, Reader};

/// Reads a command identifier with its payload (Zigbee PRO Green Power, A.4.1 and A.4.2), of at most 117 octets.
/// Numbers of more than one octet are least significant octet first.
///
/// Refused are no octets at all, a field that passes the end, a value in a report whose type has no size in the table
/// (Zigbee Cluster Library, 2.6.2), and a security level or a key type that is reserved. A refusal names the first
/// fault from the left. The place of `Short` is the length of the input, that of `ValueKind` the place of the type
/// octet.
pub fn read(octets: &[u8]) -> Result<GpdCommand, CommandReason>
    requires { length octets.now ≤ 117 }
    // What is read is spelled so,
    ensures found { IfOk result (λ command. Command command octets.now) }
    // and what is spelled so is read.
    ensures only { (command : GpdCommand) → Command command octets.now → result ≡ Ok command }
    // What is refused has that fault first,
    ensures refused { IfErr result (λ reason. first_reason octets.now ≡ Some reason) }
    // and what has a fault first is refused with it.
    ensures reason { (reason : CommandReason) → first_reason octets.now ≡ Some reason → result ≡ Err reason }
    // All of it in one, for callers that compute.
    ensures exact { result ≡ reading octets.now }
{
    read_all(octets)
}

/// Reads one octet and the rest, after an identifier.
fn read_single(octets: &[u8], reader: &mut Reader) -> Result<(u8, Octets), CommandReason>
    requires same { reader.old.octets ≡ octets.now }
    requires place { reader.old.place ≡ 1 }
    requires room { length octets.now ≤ 117 }
    ensures { result ≡ answer (ends_before 2 octets.now) (octet_at octets.now 1, drop 2 octets.now) }
{
    let Ok(value) = octet(reader) else {
        return Err(short(octets));
    };
    Ok((value, rest(reader)))
}

/// Reads a command by its places.
#[tactic(auto, unfolding(crate::specs::Command::reading, crate::specs::Command::first_reason))]
fn read_all(octets: &[u8]) -> Result<GpdCommand, CommandReason>
    requires { length octets.now ≤ 117 }
    ensures { result ≡ reading octets.now }
{
    let mut reader = Reader::new(octets);
    let Ok(id) = octet(&mut reader) else {
        return Err(CommandReason::Empty);
    };
    match form_of(id) {
        Form::Plain => Ok(GpdCommand::Plain {
            id,
            rest: rest(&mut reader),
        }),
        Form::Move => Ok(read_move(id, &mut reader)),
        Form::Step => read_step(octets, id, &mut reader),
        Form::Vector => {
            let (value, rest) = read_single(octets, &mut reader)?;
            Ok(GpdCommand::Vector { id, value, rest })
        }
        Form::Report => read_report(octets, &mut reader),
        Form::Commissioning => Ok(GpdCommand::Commissioning(read_commissioning(
            octets,
            &mut reader,
        )?)),
        Form::Reply => Ok(GpdCommand::Reply(read_reply(octets, &mut reader)?)),
        Form::ChannelRequest => {
            let (value, rest) = read_single(octets, &mut reader)?;
            Ok(GpdCommand::ChannelRequest { value, rest })
        }
        Form::ChannelConfig => {
            let (value, rest) = read_single(octets, &mut reader)?;
            Ok(GpdCommand::ChannelConfig { value, rest })
        }
        Form::Other => Ok(GpdCommand::Other {
            id,
            rest: rest(&mut reader),
        }),
    }
}
