//! Commissioning and its reply as JSON objects.

ghost use Rattle.std.specs.Prelude.{◌≡◌, [], false, OnOk};
ghost use Rattle.serde_json.specs.View.{members_view};
ghost use Rattle.serde_json.specs.Written.{members_have_float};
ghost use Rattle.gp_listing.specs.Json.{key_members, application_members, device_members, commissioning_members, network_members, reply_members};

use crate::json::member::{
    put_cipher_key, put_hex, put_mic, put_number, put_optional_hex16, put_optional_number,
    put_optional_octets, put_text,
};
use gp_base::Key;
use gp_commands::{Commissioning, Reply};
use serde_json::{Map, Value};
use std::alloc::{AllocError, Global};

/// Puts the fields of a Commissioning.
#[tactic(auto, unfolding(crate::specs::Json::commissioning_members))]
pub(crate) fn put_commissioning(
    alloc: Global,
    map: &mut Map<String, Value>,
    command: &Commissioning,
) -> Result<(), AllocError>
    requires { map.old.entries ≡ [] }
    ensures members { OnOk result (members_view map.new.entries ≡ commissioning_members command.now) }
    ensures whole { OnOk result (members_have_float (members_view map.new.entries) ≡ false) }
{
    put_device(alloc, map, command)?;
    put_key(alloc, map, &command.key, &command.key_mic, command.counter)?;
    put_application(alloc, map, command)
}

/// Puts the fields of a Reply.
#[tactic(auto, unfolding(crate::specs::Json::reply_members))]
pub(crate) fn put_reply(
    alloc: Global,
    map: &mut Map<String, Value>,
    command: &Reply,
) -> Result<(), AllocError>
    requires { map.old.entries ≡ [] }
    ensures members { OnOk result (members_view map.new.entries ≡ reply_members command.now) }
    ensures whole { OnOk result (members_have_float (members_view map.new.entries) ≡ false) }
{
    put_network(alloc, map, command)?;
    put_key(alloc, map, &command.key, &command.key_mic, command.counter)
}

#[tactic(auto, unfolding(crate::specs::Json::device_members))]
fn put_device(
    alloc: Global,
    map: &mut Map<String, Value>,
    command: &Commissioning,
) -> Result<(), AllocError>
    requires { map.old.entries ≡ [] }
    ensures members { OnOk result (members_view map.new.entries ≡ device_members command.now) }
    ensures whole { OnOk result (members_have_float (members_view map.new.entries) ≡ false) }
{
    put_hex(alloc, map, "rest", command.rest.as_slice())?;
    put_number(alloc, map, "options", u64::from(command.options))?;
    put_text(alloc, map, "kind", "Commissioning")?;
    put_optional_number(alloc, map, "extended", command.extended.map(u64::from))?;
    put_number(alloc, map, "device", u64::from(command.device))
}

#[tactic(auto, unfolding(crate::specs::Json::network_members))]
fn put_network(
    alloc: Global,
    map: &mut Map<String, Value>,
    command: &Reply,
) -> Result<(), AllocError>
    requires { map.old.entries ≡ [] }
    ensures members { OnOk result (members_view map.new.entries ≡ network_members command.now) }
    ensures whole { OnOk result (members_have_float (members_view map.new.entries) ≡ false) }
{
    put_hex(alloc, map, "rest", command.rest.as_slice())?;
    put_optional_hex16(alloc, map, "pan", command.pan)?;
    put_number(alloc, map, "options", u64::from(command.options))?;
    put_text(alloc, map, "kind", "Reply")
}

#[tactic(auto, unfolding(crate::specs::Json::key_members))]
fn put_key(
    alloc: Global,
    map: &mut Map<String, Value>,
    key: &Option<Key>,
    key_mic: &Option<[u8; 4]>,
    counter: Option<u32>,
) -> Result<(), AllocError>
    ensures members { OnOk result (members_view map.new.entries ≡ key_members key.now key_mic.now counter (members_view map.old.entries)) }
    ensures whole { OnOk result (members_have_float (members_view map.old.entries) ≡ false → members_have_float (members_view map.new.entries) ≡ false) }
{
    put_mic(alloc, map, "key_mic", key_mic)?;
    put_cipher_key(alloc, map, "key", key)?;
    put_optional_number(alloc, map, "counter", counter.map(u64::from))
}

#[tactic(auto, unfolding(crate::specs::Json::application_members))]
fn put_application(
    alloc: Global,
    map: &mut Map<String, Value>,
    command: &Commissioning,
) -> Result<(), AllocError>
    ensures members { OnOk result (members_view map.new.entries ≡ application_members command.now (members_view map.old.entries)) }
    ensures whole { OnOk result (members_have_float (members_view map.old.entries) ≡ false → members_have_float (members_view map.new.entries) ≡ false) }
{
    put_optional_hex16(alloc, map, "model", command.model)?;
    put_optional_hex16(alloc, map, "manufacturer", command.manufacturer)?;
    put_optional_octets(alloc, map, "commands", &command.commands)?;
    put_optional_octets(alloc, map, "clusters", &command.clusters)?;
    put_optional_number(
        alloc,
        map,
        "application",
        command.application.map(u64::from),
    )
}
