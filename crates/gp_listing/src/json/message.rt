//! Messages of the Green Power cluster as JSON objects.

ghost use Rattle.std.specs.Prelude.{◌≡◌, [], false, OnOk};
ghost use Rattle.serde_json.specs.View.{members_view};
ghost use Rattle.serde_json.specs.Written.{members_have_float};
ghost use Rattle.serde_json.specs.Data.{string, put as with_member};
ghost use Rattle.gp_cluster.specs.Message.{HasWidths, reading};
ghost use Rattle.gp_listing.specs.Messages.{message_text};
ghost use Rattle.gp_listing.specs.Json.{sent_members};

use crate::json::member::put_text;
use crate::json::put_bad;
use crate::message::{named_in_message, push_message};
use gp_cluster::{Zcl, decode};
use serde_json::{Map, Value};
use std::alloc::{AllocError, Global};
use std::str;

/// Puts what octets behind `zcl ` read as: a message by its listing, or the reason why they are none and its place.
#[tactic(auto, unfolding(crate::specs::Json::sent_members))]
pub(crate) fn put_sent(
    alloc: Global,
    map: &mut Map<String, Value>,
    octets: &[u8],
) -> Result<(), AllocError>
    requires { map.old.entries ≡ [] }
    ensures members { OnOk result (members_view map.new.entries ≡ sent_members (reading octets.now)) }
    ensures whole { OnOk result (members_have_float (members_view map.new.entries) ≡ false) }
{
    match decode(octets) {
        Ok(zcl) => put_message(alloc, map, "zcl", &zcl),
        Err(reason) => {
            let (name, place) = named_in_message(reason);
            put_bad(alloc, map, name, place)
        }
    }
}

// Puts the listing of a message at a key.
fn put_message(
    alloc: Global,
    map: &mut Map<String, Value>,
    key: &str,
    zcl: &Zcl,
) -> Result<(), AllocError>
    requires { HasWidths zcl.now.body }
    ensures member { OnOk result (members_view map.new.entries ≡ with_member key.now (string (message_text zcl.now)) (members_view map.old.entries)) }
    ensures whole { OnOk result (members_have_float (members_view map.old.entries) ≡ false → members_have_float (members_view map.new.entries) ≡ false) }
{
    let mut listed = Vec::new(alloc);
    push_message(&mut listed, zcl)?;
    let Ok(text) = str::from_utf8(listed.as_slice()) else {
        // A listing is ASCII.
        unreachable!();
    };
    put_text(alloc, map, key, text)
}
