//! The listing of a line of a capture.

ghost use Rattle.std.specs.Prelude.{◌≡◌, ℕ, ◌≤◌, List, Option, [], ◌∷◌, ◌++◌, Some, None, length, IfSome, OnOk, OnErr, MatchResult};
ghost use Rattle.std.specs.Option.{IsSomeAnd};
ghost use Rattle.gp_frames.specs.Frame.{extension};
ghost use Rattle.gp_commands.specs.Command.{reading as read_command};
ghost use Rattle.gp_frames.specs.Reading.{reading};
ghost use Rattle.gp_listing.specs.Listing.{kind_text, refusal_text, mac_text, auto_text, ext_text, variant_name, command_reason_name, command_reason_place, keying_place, command_text, read_text, tag_text, header_text, body_text, frame_text, air_text, capture_text, listing};
ghost use Rattle.gp_listing.specs.Opening.{shown_body};
ghost use Rattle.gp_listing.specs.Texts.{src_text, counter_text, mic_text, bad_text};

use crate::message::push_sent;
use crate::opening::{Opening, open};
use crate::text::{push_field, push_hex, push_number, push_text};
use gp_base::{Key, Src};
use gp_commands::{CommandReason, GpdCommand, read};
use gp_frames::{Ext, FrameReason, Gpdf, Mpdu, decode};
use gp_script::{Capture, read_capture};
use std::alloc::AllocError;

/// Why a line isn't listed.
#[derive(Clone, Copy)]
pub enum Unlisted {
    /// It is no line of a capture.
    Form,
    /// Memory was asked for and not found.
    NoMemory,
}

/// Adds the listing of a line, without a line end.
#[tactic(auto, unfolding(crate::specs::Listing::listing))]
pub fn push_listing(text: &mut Vec<u8>, key: Option<Key>, line: &[u8]) -> Result<(), Unlisted>
    requires { length line.now ≤ 1024 }
    ensures ok { OnOk result (IsSomeAnd (listing key line.now) (λ listed. text.new.items ≡ text.old.items ++ listed)) }
    ensures form { result ≡ Err Unlisted.Form → listing key line.now ≡ None }
    ensures kept { result ≡ Err Unlisted.Form → text.new.items ≡ text.old.items }
{
    let Ok(capture) = read_capture(line) else {
        return Err(Unlisted::Form);
    };
    match push_capture(text, key, &capture) {
        Ok(()) => Ok(()),
        Err(_) => Err(Unlisted::NoMemory),
    }
}

fn push_capture(text: &mut Vec<u8>, key: Option<Key>, capture: &Capture) -> Result<(), AllocError>
    ensures { OnOk result (text.new.items ≡ text.old.items ++ capture_text key capture.now) }
{
    match capture {
        Capture::Frame(octets) => push_air(text, key, octets.as_slice()),
        Capture::Message(octets) => push_sent(text, octets.as_slice()),
    }
}

/// Adds the listing of octets of the air.
#[tactic(auto, unfolding(crate::specs::Listing::air_text))]
pub fn push_air(text: &mut Vec<u8>, key: Option<Key>, octets: &[u8]) -> Result<(), AllocError>
    ensures { OnOk result (text.new.items ≡ text.old.items ++ air_text key (reading octets.now)) }
{
    match decode(octets) {
        Ok(mpdu) => {
            let told = open(key, &mpdu.frame);
            push_frame(text, &told, &mpdu)
        }
        Err(reason) => push_refusal(text, reason),
    }
}

#[tactic(auto, unfolding(crate::specs::Listing::refusal_text))]
fn push_refusal(text: &mut Vec<u8>, reason: FrameReason) -> Result<(), AllocError>
    ensures { OnOk result (text.new.items ≡ text.old.items ++ refusal_text reason) }
{
    let (name, place) = named(reason);
    push_bad(text, name, place)
}

// Adds what is refused, by the name of the reason and its place.
#[tactic(auto, unfolding(crate::specs::Texts::bad_text))]
pub(crate) fn push_bad(text: &mut Vec<u8>, name: &str, place: u8) -> Result<(), AllocError>
    ensures { OnOk result (text.new.items ≡ text.old.items ++ bad_text name.now place) }
{
    push_text(text, "bad ")?;
    push_text(text, name)?;
    push_text(text, " ")?;
    push_number(text, u64::from(place))
}

// The name of a reason, and its place in the octets.
pub(crate) fn named(reason: FrameReason) -> (&'static str, u8)
    ensures name { result.0.now ≡ Rattle.gp_listing.specs.Listing.reason_name reason }
    ensures place { result.1 ≡ Rattle.gp_listing.specs.Listing.reason_place reason }
{
    match reason {
        FrameReason::TooLong => ("TooLong", 125),
        FrameReason::Short { place } => ("Short", place),
        FrameReason::MacForm => ("MacForm", 0),
        FrameReason::FrameKind => ("FrameKind", 7),
        FrameReason::Version => ("Version", 7),
        FrameReason::AppId => ("AppId", 8),
        FrameReason::LevelOne => ("LevelOne", 8),
        FrameReason::SecuredMaintenance => ("SecuredMaintenance", 8),
        FrameReason::NoCommand { place } => ("NoCommand", place),
    }
}

#[tactic(auto, unfolding(crate::specs::Listing::frame_text))]
fn push_frame(text: &mut Vec<u8>, told: &Opening, mpdu: &Mpdu) -> Result<(), AllocError>
    requires level { IfSome mpdu.now.frame.ext (λ ext. ext.level ≤ 3) }
    requires body { length (shown_body told.now mpdu.now.frame) ≤ 117 }
    ensures { OnOk result (text.new.items ≡ text.old.items ++ frame_text told.now mpdu.now) }
{
    push_mac(text, mpdu)?;
    push_header(text, &mpdu.frame)?;
    push_body(text, told, &mpdu.frame)
}

#[tactic(auto, unfolding(crate::specs::Listing::mac_text))]
fn push_mac(text: &mut Vec<u8>, mpdu: &Mpdu) -> Result<(), AllocError>
    ensures { OnOk result (text.new.items ≡ text.old.items ++ mac_text mpdu.now) }
{
    push_text(text, kind(mpdu.frame.maintenance))?;
    push_field(text, " seq=", &[mpdu.seq])?;
    push_field(text, " pan=", &mpdu.pan.to_be_bytes())?;
    push_field(text, " dest=", &mpdu.dest.to_be_bytes())
}

pub(crate) fn kind(is_maintenance: bool) -> &'static str
    ensures { result.now ≡ kind_text is_maintenance }
{
    if is_maintenance {
        "maintenance"
    } else {
        "data"
    }
}

#[tactic(auto, unfolding(crate::specs::Listing::header_text))]
fn push_header(text: &mut Vec<u8>, frame: &Gpdf) -> Result<(), AllocError>
    requires { IfSome frame.now.ext (λ ext. ext.level ≤ 3) }
    ensures { OnOk result (text.new.items ≡ text.old.items ++ header_text frame.now) }
{
    push_auto(text, frame.auto)?;
    push_ext(text, frame.ext)?;
    push_src(text, frame.src)?;
    push_counter(text, frame.counter)
}

#[tactic(auto, unfolding(crate::specs::Listing::auto_text))]
fn push_auto(text: &mut Vec<u8>, auto: bool) -> Result<(), AllocError>
    ensures { OnOk result (text.new.items ≡ text.old.items ++ auto_text auto) }
{
    push_text(text, if auto { " auto=1" } else { " auto=0" })
}

#[tactic(auto, unfolding(crate::specs::Listing::ext_text))]
fn push_ext(text: &mut Vec<u8>, ext: Option<Ext>) -> Result<(), AllocError>
    requires { IfSome ext (λ e. e.level ≤ 3) }
    ensures { OnOk result (text.new.items ≡ text.old.items ++ ext_text ext) }
{
    match ext {
        Some(ext) => push_field(text, " ext=", &[ext.octet()]),
        None => push_text(text, " ext=-"),
    }
}

#[tactic(auto, unfolding(crate::specs::Texts::src_text))]
pub(crate) fn push_src(text: &mut Vec<u8>, src: Option<Src>) -> Result<(), AllocError>
    ensures { OnOk result (text.new.items ≡ text.old.items ++ src_text src) }
{
    match src {
        Some(src) => push_field(text, " src=", &src.0.to_be_bytes()),
        None => push_text(text, " src=-"),
    }
}

#[tactic(auto, unfolding(crate::specs::Texts::counter_text))]
pub(crate) fn push_counter(text: &mut Vec<u8>, counter: Option<u32>) -> Result<(), AllocError>
    ensures { OnOk result (text.new.items ≡ text.old.items ++ counter_text counter) }
{
    match counter {
        Some(counter) => {
            push_text(text, " counter=")?;
            push_number(text, u64::from(counter))
        }
        None => push_text(text, " counter=-"),
    }
}

#[tactic(auto, unfolding(crate::specs::Listing::body_text))]
fn push_body(text: &mut Vec<u8>, told: &Opening, frame: &Gpdf) -> Result<(), AllocError>
    requires { length (shown_body told.now frame.now) ≤ 117 }
    ensures { OnOk result (text.new.items ≡ text.old.items ++ body_text told.now frame.now) }
{
    let body = told.body(frame);
    push_field(text, " body=", body)?;
    push_mic(text, &frame.mic)?;
    push_read(text, told.is_clear(frame), body)?;
    push_tag(text, told)
}

#[tactic(auto, unfolding(crate::specs::Listing::read_text))]
fn push_read(text: &mut Vec<u8>, is_clear: bool, body: &[u8]) -> Result<(), AllocError>
    requires { length body.now ≤ 117 }
    ensures { OnOk result (text.new.items ≡ text.old.items ++ read_text is_clear body.now) }
{
    push_text(text, " read=")?;
    if !is_clear {
        return push_text(text, "-");
    }
    push_command(text, body)
}

#[tactic(auto, unfolding(crate::specs::Listing::tag_text))]
fn push_tag(text: &mut Vec<u8>, told: &Opening) -> Result<(), AllocError>
    ensures { OnOk result (text.new.items ≡ text.old.items ++ tag_text told.now) }
{
    push_text(text, " tag=")?;
    push_text(text, told.tag())
}

#[tactic(auto, unfolding(crate::specs::Listing::command_text))]
fn push_command(text: &mut Vec<u8>, body: &[u8]) -> Result<(), AllocError>
    requires { length body.now ≤ 117 }
    ensures { OnOk result (text.new.items ≡ text.old.items ++ command_text body.now (read_command body.now)) }
{
    match read(body) {
        Ok(command) => push_text(text, variant(&command)),
        Err(reason) => {
            let (name, place) = named_in_command(body, reason);
            push_text(text, name)?;
            push_text(text, ":")?;
            push_number(text, u64::from(place))
        }
    }
}

// The name of a variant.
pub(crate) fn variant(command: &GpdCommand) -> &'static str
    ensures { result.now ≡ variant_name command.now }
{
    match command {
        GpdCommand::Plain { .. } => "Plain",
        GpdCommand::Move { .. } => "Move",
        GpdCommand::Step { .. } => "Step",
        GpdCommand::Vector { .. } => "Vector",
        GpdCommand::Report { .. } => "Report",
        GpdCommand::Commissioning(_) => "Commissioning",
        GpdCommand::Reply(_) => "Reply",
        GpdCommand::ChannelRequest { .. } => "ChannelRequest",
        GpdCommand::ChannelConfig { .. } => "ChannelConfig",
        GpdCommand::Other { .. } => "Other",
    }
}

// The name of a reason why octets are no command, and its place in them.
fn named_in_command(body: &[u8], reason: CommandReason) -> (&'static str, u8)
    ensures name { result.0.now ≡ command_reason_name reason }
    ensures place { result.1 ≡ command_reason_place body.now reason }
{
    match reason {
        CommandReason::Empty => ("Empty", 0),
        CommandReason::Short { place } => ("Short", place),
        CommandReason::ValueKind { place } => ("ValueKind", place),
        CommandReason::ReservedLevel => ("ReservedLevel", keying_octet(body)),
        CommandReason::ReservedKeyKind => ("ReservedKeyKind", keying_octet(body)),
    }
}

// The place of the octet with level and key type.
fn keying_octet(body: &[u8]) -> u8
    ensures { result ≡ keying_place body.now }
{
    match body.first() {
        Some(0xE0) => 3,
        _ => 1,
    }
}

#[tactic(auto, unfolding(crate::specs::Texts::mic_text))]
pub(crate) fn push_mic(text: &mut Vec<u8>, mic: &Option<[u8; 4]>) -> Result<(), AllocError>
    ensures { OnOk result (text.new.items ≡ text.old.items ++ mic_text mic.now) }
{
    match mic {
        Some(mic) => push_field(text, " mic=", mic),
        None => push_text(text, " mic=-"),
    }
}
