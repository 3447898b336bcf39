//! Commands as JSON objects.

ghost use Rattle.std.specs.Prelude.{◌≡◌, ◌≤◌, [], false, length, OnOk};
ghost use Rattle.serde_json.specs.Data.{put as with_member};
ghost use Rattle.serde_json.specs.View.{members_view};
ghost use Rattle.serde_json.specs.Written.{members_have_float};
ghost use Rattle.gp_commands.specs.Command.{reading as read_command};
ghost use Rattle.gp_listing.specs.Json.{command_data, command_members, read_data, plain_members, move_members, step_members, vector_members, report_members, channel_members};

use crate::json::commissioning::{put_commissioning, put_reply};
use crate::json::member::{
    put_hex, put_null, put_number, put_optional_number, put_text, put_value,
};
use gp_base::Octets;
use gp_commands::{GpdCommand, read};
use serde_json::{Map, Value};
use std::alloc::{AllocError, Global};

/// Puts what the command of a frame reads as, where it is in clear.
#[tactic(auto, unfolding(crate::specs::Json::read_data))]
pub(crate) fn put_read(
    alloc: Global,
    map: &mut Map<String, Value>,
    key: &str,
    is_clear: bool,
    body: &[u8],
) -> Result<(), AllocError>
    requires { length body.now ≤ 117 }
    ensures member { OnOk result (members_view map.new.entries ≡ with_member key.now (read_data is_clear body.now) (members_view map.old.entries)) }
    ensures whole { OnOk result (members_have_float (members_view map.old.entries) ≡ false → members_have_float (members_view map.new.entries) ≡ false) }
{
    if !is_clear {
        return put_null(alloc, map, key);
    }
    put_command(alloc, map, key, body)
}

fn put_command(
    alloc: Global,
    map: &mut Map<String, Value>,
    key: &str,
    body: &[u8],
) -> Result<(), AllocError>
    requires { length body.now ≤ 117 }
    ensures member { OnOk result (members_view map.new.entries ≡ with_member key.now (command_data (read_command body.now)) (members_view map.old.entries)) }
    ensures whole { OnOk result (members_have_float (members_view map.old.entries) ≡ false → members_have_float (members_view map.new.entries) ≡ false) }
{
    let Ok(command) = read(body) else {
        return put_null(alloc, map, key);
    };
    let mut fields = Map::new(alloc);
    put_fields(alloc, &mut fields, &command)?;
    put_value(alloc, map, key, Value::from(fields))
}

#[tactic(auto, unfolding(crate::specs::Json::command_members))]
fn put_fields(
    alloc: Global,
    map: &mut Map<String, Value>,
    command: &GpdCommand,
) -> Result<(), AllocError>
    requires { map.old.entries ≡ [] }
    ensures members { OnOk result (members_view map.new.entries ≡ command_members command.now) }
    ensures whole { OnOk result (members_have_float (members_view map.new.entries) ≡ false) }
{
    match command {
        GpdCommand::Plain { id, rest } => put_plain(alloc, map, "Plain", *id, rest),
        GpdCommand::Move { id, rate, rest } => put_move(alloc, map, *id, *rate, rest),
        GpdCommand::Step {
            id,
            size,
            time,
            rest,
        } => put_step(alloc, map, *id, *size, *time, rest),
        GpdCommand::Vector { id, value, rest } => put_vector(alloc, map, *id, *value, rest),
        GpdCommand::Report { cluster, records } => put_report(alloc, map, *cluster, records),
        GpdCommand::Commissioning(command) => put_commissioning(alloc, map, command),
        GpdCommand::Reply(command) => put_reply(alloc, map, command),
        GpdCommand::ChannelRequest { value, rest } => {
            put_channel(alloc, map, "ChannelRequest", *value, rest)
        }
        GpdCommand::ChannelConfig { value, rest } => {
            put_channel(alloc, map, "ChannelConfig", *value, rest)
        }
        GpdCommand::Other { id, rest } => put_plain(alloc, map, "Other", *id, rest),
    }
}

#[tactic(auto, unfolding(crate::specs::Json::plain_members))]
fn put_plain(
    alloc: Global,
    map: &mut Map<String, Value>,
    kind: &str,
    id: u8,
    rest: &Octets,
) -> Result<(), AllocError>
    requires { map.old.entries ≡ [] }
    ensures members { OnOk result (members_view map.new.entries ≡ plain_members kind.now id rest.now) }
    ensures whole { OnOk result (members_have_float (members_view map.new.entries) ≡ false) }
{
    put_hex(alloc, map, "rest", rest.as_slice())?;
    put_text(alloc, map, "kind", kind)?;
    put_number(alloc, map, "id", u64::from(id))
}

#[tactic(auto, unfolding(crate::specs::Json::move_members))]
fn put_move(
    alloc: Global,
    map: &mut Map<String, Value>,
    id: u8,
    rate: Option<u8>,
    rest: &Octets,
) -> Result<(), AllocError>
    requires { map.old.entries ≡ [] }
    ensures members { OnOk result (members_view map.new.entries ≡ move_members id rate rest.now) }
    ensures whole { OnOk result (members_have_float (members_view map.new.entries) ≡ false) }
{
    put_plain(alloc, map, "Move", id, rest)?;
    put_optional_number(alloc, map, "rate", rate.map(u64::from))
}

#[tactic(auto, unfolding(crate::specs::Json::step_members))]
fn put_step(
    alloc: Global,
    map: &mut Map<String, Value>,
    id: u8,
    size: u8,
    time: Option<u16>,
    rest: &Octets,
) -> Result<(), AllocError>
    requires { map.old.entries ≡ [] }
    ensures members { OnOk result (members_view map.new.entries ≡ step_members id size time rest.now) }
    ensures whole { OnOk result (members_have_float (members_view map.new.entries) ≡ false) }
{
    put_plain(alloc, map, "Step", id, rest)?;
    put_optional_number(alloc, map, "time", time.map(u64::from))?;
    put_number(alloc, map, "size", u64::from(size))
}

#[tactic(auto, unfolding(crate::specs::Json::vector_members))]
fn put_vector(
    alloc: Global,
    map: &mut Map<String, Value>,
    id: u8,
    value: u8,
    rest: &Octets,
) -> Result<(), AllocError>
    requires { map.old.entries ≡ [] }
    ensures members { OnOk result (members_view map.new.entries ≡ vector_members id value rest.now) }
    ensures whole { OnOk result (members_have_float (members_view map.new.entries) ≡ false) }
{
    put_plain(alloc, map, "Vector", id, rest)?;
    put_number(alloc, map, "value", u64::from(value))
}

#[tactic(auto, unfolding(crate::specs::Json::report_members))]
fn put_report(
    alloc: Global,
    map: &mut Map<String, Value>,
    cluster: u16,
    records: &Octets,
) -> Result<(), AllocError>
    requires { map.old.entries ≡ [] }
    ensures members { OnOk result (members_view map.new.entries ≡ report_members cluster records.now) }
    ensures whole { OnOk result (members_have_float (members_view map.new.entries) ≡ false) }
{
    put_hex(alloc, map, "records", records.as_slice())?;
    put_text(alloc, map, "kind", "Report")?;
    put_hex(alloc, map, "cluster", &cluster.to_be_bytes())
}

#[tactic(auto, unfolding(crate::specs::Json::channel_members))]
fn put_channel(
    alloc: Global,
    map: &mut Map<String, Value>,
    kind: &str,
    value: u8,
    rest: &Octets,
) -> Result<(), AllocError>
    requires { map.old.entries ≡ [] }
    ensures members { OnOk result (members_view map.new.entries ≡ channel_members kind.now value rest.now) }
    ensures whole { OnOk result (members_have_float (members_view map.new.entries) ≡ false) }
{
    put_number(alloc, map, "value", u64::from(value))?;
    put_hex(alloc, map, "rest", rest.as_slice())?;
    put_text(alloc, map, "kind", kind)
}
