//! Which commands have a spelling, and that spelling.

ghost use Rattle.std.specs.Prelude.{◌≡◌, ◌∷◌, ◌<◌, ◌≤◌, ◌↔◌, length, IsTrue, OnOk, MatchResult};
ghost use Rattle.std.specs.Bool.{OnTrue};
ghost use Rattle.gp_base.specs.Field.{Adds, IsOctets};
ghost use Rattle.gp_commands.specs.Command.{Command, IsSound, spelling, HasForm, HasWidths};

use crate::command::GpdCommand;
use crate::commissioning::{self, add_commissioning};
use crate::form::{CHANNEL_CONFIG, CHANNEL_REQUEST, COMMISSIONING, Form, REPLY, form_of};
use crate::level::{add_move, add_step, has_move_rest, has_step_rest};
use crate::reply::{self, add_reply};
use crate::report::{add_report, are_records};
use gp_base::Octets;
use gp_base::field::{NoRoom, add, add_octet};

/// Whether a command has a spelling (Zigbee PRO Green Power, A.4.1 and A.4.2): exactly where some octets, at most 117
/// of them, read as it.
pub fn sound(command: &GpdCommand) -> bool
    ensures { IsTrue result ↔ IsSound command.now }
{
    has_form(command) && has_room(command)
}

/// The octets that read as a command (Zigbee PRO Green Power, A.4.1 and A.4.2), which has to be sound: the identifier
/// and the payload, at most 117 octets. Numbers of more than one octet are least significant octet first. There is one
/// such list.
pub fn write(command: &GpdCommand) -> Octets
    requires { IsSound command.now }
    ensures spelled { Command command.now result }
{
    match spell(command) {
        Ok(octets) => octets,
        Err(_) => unreachable!(),
    }
}

/// Whether a command has at most 117 octets.
fn has_room(command: &GpdCommand) -> bool
    ensures room { IsTrue result ↔ (length (spelling command.now) ≤ 117) }
    ensures widths { OnTrue result (HasWidths command.now) }
    ensures octets { OnTrue result (IsOctets (spelling command.now)) }
{
    match spell(command) {
        Ok(octets) => octets.as_slice().len() <= 117,
        Err(_) => false,
    }
}

/// Whether the identifier is one of the variant's, and each field is there where it is to be.
pub(crate) fn has_form(command: &GpdCommand) -> bool
    ensures { IsTrue result ↔ HasForm command.now }
{
    match command {
        GpdCommand::Plain { id, .. } => form_of(*id) == Form::Plain,
        GpdCommand::Move { id, rate, rest } => {
            form_of(*id) == Form::Move && has_move_rest(*rate, rest)
        }
        GpdCommand::Step { id, time, rest, .. } => {
            form_of(*id) == Form::Step && has_step_rest(*time, rest)
        }
        GpdCommand::Vector { id, .. } => form_of(*id) == Form::Vector,
        GpdCommand::Report { records, .. } => are_records(records.as_slice()),
        GpdCommand::Commissioning(commissioning) => commissioning::fields_agree(commissioning),
        GpdCommand::Reply(reply) => reply::fields_agree(reply),
        GpdCommand::ChannelRequest { .. } => true,
        GpdCommand::ChannelConfig { .. } => true,
        GpdCommand::Other { id, .. } => form_of(*id) == Form::Other,
    }
}

/// The octets of a command, `NoRoom` where they are more than 127.
pub(crate) fn spell(command: &GpdCommand) -> Result<Octets, NoRoom>
    ensures octets { MatchResult result (λ octets. octets ≡ spelling command.now) (λ _. 127 < length (spelling command.now)) }
    ensures widths { OnOk result (HasWidths command.now) }
{
    let mut out = Octets::new();
    add_command(&mut out, command)?;
    Ok(out)
}

/// Adds a command.
#[tactic(auto, unfolding(crate::specs::Command::spelling))]
fn add_command(out: &mut Octets, command: &GpdCommand) -> Result<(), NoRoom>
    ensures added { Adds (spelling command.now) out.old out.new result }
    ensures widths { OnOk result (HasWidths command.now) }
{
    match command {
        GpdCommand::Plain { id, rest } => add_one(out, *id, rest),
        GpdCommand::Move { id, rate, rest } => add_move(out, *id, *rate, rest),
        GpdCommand::Step {
            id,
            size,
            time,
            rest,
        } => add_step(out, *id, *size, *time, rest),
        GpdCommand::Vector { id, value, rest } => add_two(out, *id, *value, rest),
        GpdCommand::Report { cluster, records } => add_report(out, *cluster, records),
        GpdCommand::Commissioning(commissioning) => {
            add_octet(out, COMMISSIONING)?;
            add_commissioning(out, commissioning)
        }
        GpdCommand::Reply(reply) => {
            add_octet(out, REPLY)?;
            add_reply(out, reply)
        }
        GpdCommand::ChannelRequest { value, rest } => add_two(out, CHANNEL_REQUEST, *value, rest),
        GpdCommand::ChannelConfig { value, rest } => add_two(out, CHANNEL_CONFIG, *value, rest),
        GpdCommand::Other { id, rest } => add_one(out, *id, rest),
    }
}

/// Adds one octet and the rest.
fn add_one(out: &mut Octets, id: u8, rest: &Octets) -> Result<(), NoRoom>
    ensures { Adds (id ∷ rest.now) out.old out.new result }
{
    add_octet(out, id)?;
    add(out, rest.as_slice())
}

/// Adds two octets and the rest.
fn add_two(out: &mut Octets, id: u8, value: u8, rest: &Octets) -> Result<(), NoRoom>
    ensures { Adds (id ∷ value ∷ rest.now) out.old out.new result }
{
    add(out, &[id, value])?;
    add(out, rest.as_slice())
}
