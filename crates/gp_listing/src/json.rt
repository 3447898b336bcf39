//! The listing of a line of a capture as JSON.

ghost use Rattle.std.specs.Prelude.{◌≡◌, ◌≤◌, ◌++◌, [], ◌∷◌, false, length, Some, None, Ok, Err, IfSome, OnOk};
ghost use Rattle.std.specs.Option.{IsSomeAnd};
ghost use Rattle.serde_json.specs.Data.{object, put as with_member};
ghost use Rattle.serde_json.specs.View.{members_view};
ghost use Rattle.serde_json.specs.Written.{compact_text, members_have_float};
ghost use Rattle.gp_frames.specs.Frame.{extension};
ghost use Rattle.gp_frames.specs.Reading.{reading};
ghost use Rattle.gp_cluster.specs.Message.{reading as read_message};
ghost use Rattle.gp_listing.specs.Opening.{shown_body};
ghost use Rattle.gp_listing.specs.Json.{hex, hex32, or_null, tag_data, bad_members, refusal_members, sent_members, mac_members, header_members, body_members, frame_members, air_members, capture_json, json_listing};

use crate::json::command::put_read;
use crate::json::member::{
    put_flag, put_hex, put_mic, put_null, put_number, put_optional_number, put_text,
};
use crate::json::message::put_sent;
use crate::listing::{Unlisted, kind, named};
use crate::opening::{Opening, open};
use crate::text::push_text;
use gp_base::{Key, Src};
use gp_frames::{Ext, FrameReason, Gpdf, Mpdu, decode};
use gp_script::{Capture, read_capture};
use serde_json::{Map, Value};
use std::alloc::{AllocError, Global};

mod command;
mod commissioning;
mod member;
mod message;

/// Adds the listing of a line as JSON, without a line end.
#[tactic(auto, unfolding(crate::specs::Json::json_listing))]
pub fn push_json(
    alloc: Global,
    text: &mut Vec<u8>,
    key: Option<Key>,
    line: &[u8],
) -> Result<(), Unlisted>
    requires { length line.now ≤ 1024 }
    ensures ok { OnOk result (IsSomeAnd (json_listing key line.now) (λ listed. text.new.items ≡ text.old.items ++ listed)) }
    ensures form { result ≡ Err Unlisted.Form → json_listing key line.now ≡ None }
    ensures kept { result ≡ Err Unlisted.Form → text.new.items ≡ text.old.items }
{
    let Ok(capture) = read_capture(line) else {
        return Err(Unlisted::Form);
    };
    match push_capture(alloc, text, key, &capture) {
        Ok(()) => Ok(()),
        Err(_) => Err(Unlisted::NoMemory),
    }
}

fn push_capture(
    alloc: Global,
    text: &mut Vec<u8>,
    key: Option<Key>,
    capture: &Capture,
) -> Result<(), AllocError>
    ensures { OnOk result (text.new.items ≡ text.old.items ++ capture_json key capture.now) }
{
    match capture {
        Capture::Frame(octets) => push_air(alloc, text, key, octets.as_slice()),
        Capture::Message(octets) => push_sent(alloc, text, octets.as_slice()),
    }
}

fn push_air(
    alloc: Global,
    text: &mut Vec<u8>,
    key: Option<Key>,
    octets: &[u8],
) -> Result<(), AllocError>
    ensures { OnOk result (text.new.items ≡ text.old.items ++ compact_text (object (air_members key (reading octets.now)))) }
{
    let mut map = Map::new(alloc);
    put_air(alloc, &mut map, key, octets)?;
    push_object(alloc, text, map)
}

fn push_sent(alloc: Global, text: &mut Vec<u8>, octets: &[u8]) -> Result<(), AllocError>
    ensures { OnOk result (text.new.items ≡ text.old.items ++ compact_text (object (sent_members (read_message octets.now)))) }
{
    let mut map = Map::new(alloc);
    put_sent(alloc, &mut map, octets)?;
    push_object(alloc, text, map)
}

// Adds an object that has no float.
fn push_object(alloc: Global, text: &mut Vec<u8>, map: Map<String, Value>) -> Result<(), AllocError>
    requires { members_have_float (members_view map.entries) ≡ false }
    ensures { OnOk result (text.new.items ≡ text.old.items ++ compact_text (object (members_view map.entries))) }
{
    let printed = Value::Object(map).to_string(alloc)?;
    push_text(text, printed.as_str())
}

#[tactic(auto, unfolding(crate::specs::Json::air_members))]
fn put_air(
    alloc: Global,
    map: &mut Map<String, Value>,
    key: Option<Key>,
    octets: &[u8],
) -> Result<(), AllocError>
    requires { map.old.entries ≡ [] }
    ensures members { OnOk result (members_view map.new.entries ≡ air_members key (reading octets.now)) }
    ensures whole { OnOk result (members_have_float (members_view map.new.entries) ≡ false) }
{
    match decode(octets) {
        Ok(mpdu) => {
            let told = open(key, &mpdu.frame);
            put_frame(alloc, map, &told, &mpdu)
        }
        Err(reason) => put_refusal(alloc, map, reason),
    }
}

#[tactic(auto, unfolding(crate::specs::Json::refusal_members))]
fn put_refusal(
    alloc: Global,
    map: &mut Map<String, Value>,
    reason: FrameReason,
) -> Result<(), AllocError>
    requires { map.old.entries ≡ [] }
    ensures members { OnOk result (members_view map.new.entries ≡ refusal_members reason) }
    ensures whole { OnOk result (members_have_float (members_view map.new.entries) ≡ false) }
{
    let (name, place) = named(reason);
    put_bad(alloc, map, name, place)
}

// Puts what is refused, by the name of the reason and its place.
#[tactic(auto, unfolding(crate::specs::Json::bad_members))]
fn put_bad(
    alloc: Global,
    map: &mut Map<String, Value>,
    name: &str,
    place: u8,
) -> Result<(), AllocError>
    requires { map.old.entries ≡ [] }
    ensures members { OnOk result (members_view map.new.entries ≡ bad_members name.now place) }
    ensures whole { OnOk result (members_have_float (members_view map.new.entries) ≡ false) }
{
    put_number(alloc, map, "place", u64::from(place))?;
    put_text(alloc, map, "bad", name)
}

#[tactic(auto, unfolding(crate::specs::Json::frame_members))]
fn put_frame(
    alloc: Global,
    map: &mut Map<String, Value>,
    told: &Opening,
    mpdu: &Mpdu,
) -> Result<(), AllocError>
    requires empty { map.old.entries ≡ [] }
    requires level { IfSome mpdu.now.frame.ext (λ ext. ext.level ≤ 3) }
    requires body { length (shown_body told.now mpdu.now.frame) ≤ 117 }
    ensures members { OnOk result (members_view map.new.entries ≡ frame_members told.now mpdu.now) }
    ensures whole { OnOk result (members_have_float (members_view map.new.entries) ≡ false) }
{
    put_body(alloc, map, told, &mpdu.frame)?;
    put_header(alloc, map, &mpdu.frame)?;
    put_mac(alloc, map, mpdu)
}

#[tactic(auto, unfolding(crate::specs::Json::body_members))]
fn put_body(
    alloc: Global,
    map: &mut Map<String, Value>,
    told: &Opening,
    frame: &Gpdf,
) -> Result<(), AllocError>
    requires empty { map.old.entries ≡ [] }
    requires body { length (shown_body told.now frame.now) ≤ 117 }
    ensures members { OnOk result (members_view map.new.entries ≡ body_members told.now frame.now) }
    ensures whole { OnOk result (members_have_float (members_view map.new.entries) ≡ false) }
{
    let body = told.body(frame);
    put_tag(alloc, map, "tag", told)?;
    put_mic(alloc, map, "mic", &frame.mic)?;
    put_read(alloc, map, "command", told.is_clear(frame), body)?;
    put_hex(alloc, map, "body", body)
}

// Puts whether the MIC is right, null where that isn't told.
fn put_tag(
    alloc: Global,
    map: &mut Map<String, Value>,
    key: &str,
    told: &Opening,
) -> Result<(), AllocError>
    ensures member { OnOk result (members_view map.new.entries ≡ with_member key.now (tag_data told.now) (members_view map.old.entries)) }
    ensures whole { OnOk result (members_have_float (members_view map.old.entries) ≡ false → members_have_float (members_view map.new.entries) ≡ false) }
{
    match told {
        Opening::Untold => put_null(alloc, map, key),
        Opening::Bad | Opening::Good(_) => put_text(alloc, map, key, told.tag()),
    }
}

#[tactic(auto, unfolding(crate::specs::Json::header_members))]
fn put_header(alloc: Global, map: &mut Map<String, Value>, frame: &Gpdf) -> Result<(), AllocError>
    requires { IfSome frame.now.ext (λ ext. ext.level ≤ 3) }
    ensures members { OnOk result (members_view map.new.entries ≡ header_members frame.now (members_view map.old.entries)) }
    ensures whole { OnOk result (members_have_float (members_view map.old.entries) ≡ false → members_have_float (members_view map.new.entries) ≡ false) }
{
    put_src(alloc, map, "src", frame.src)?;
    put_ext(alloc, map, "ext", frame.ext)?;
    put_optional_number(alloc, map, "counter", frame.counter.map(u64::from))?;
    put_flag(alloc, map, "auto", frame.auto)
}

#[tactic(auto, unfolding(crate::specs::Json::mac_members))]
fn put_mac(alloc: Global, map: &mut Map<String, Value>, mpdu: &Mpdu) -> Result<(), AllocError>
    ensures members { OnOk result (members_view map.new.entries ≡ mac_members mpdu.now (members_view map.old.entries)) }
    ensures whole { OnOk result (members_have_float (members_view map.old.entries) ≡ false → members_have_float (members_view map.new.entries) ≡ false) }
{
    put_hex(alloc, map, "seq", &[mpdu.seq])?;
    put_hex(alloc, map, "pan", &mpdu.pan.to_be_bytes())?;
    put_text(alloc, map, "kind", kind(mpdu.frame.maintenance))?;
    put_hex(alloc, map, "dest", &mpdu.dest.to_be_bytes())
}

fn put_ext(
    alloc: Global,
    map: &mut Map<String, Value>,
    key: &str,
    ext: Option<Ext>,
) -> Result<(), AllocError>
    requires { IfSome ext (λ e. e.level ≤ 3) }
    ensures member { OnOk result (members_view map.new.entries ≡ with_member key.now (or_null (λ e. hex (extension e ∷ [])) ext) (members_view map.old.entries)) }
    ensures whole { OnOk result (members_have_float (members_view map.old.entries) ≡ false → members_have_float (members_view map.new.entries) ≡ false) }
{
    match ext {
        Some(ext) => put_hex(alloc, map, key, &[ext.octet()]),
        None => put_null(alloc, map, key),
    }
}

fn put_src(
    alloc: Global,
    map: &mut Map<String, Value>,
    key: &str,
    src: Option<Src>,
) -> Result<(), AllocError>
    ensures member { OnOk result (members_view map.new.entries ≡ with_member key.now (or_null (λ s. hex32 s.0) src) (members_view map.old.entries)) }
    ensures whole { OnOk result (members_have_float (members_view map.old.entries) ≡ false → members_have_float (members_view map.new.entries) ≡ false) }
{
    match src {
        Some(src) => put_hex(alloc, map, key, &src.0.to_be_bytes()),
        None => put_null(alloc, map, key),
    }
}
