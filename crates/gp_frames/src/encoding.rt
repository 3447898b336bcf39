//! Spelling a frame.

ghost use Rattle.std.specs.Prelude.{◌≡◌, ◌↔◌, ◌<◌, ◌≤◌, ◌^◌, length, IsTrue, IfSome, OnOk, MatchResult};
ghost use Rattle.std.specs.Bool.{OnTrue};
ghost use Rattle.gp_base.specs.Field.{Adds, IsOctets, octet, optional};
ghost use Rattle.gp_frames.specs.Frame.{extension, level_of, Frame, IsValid};
ghost use Rattle.gp_frames.specs.Widths.{HasWidths, head_octets, field_octets, in_parts, has_fields};
ghost use Rattle.gp_frames.specs.Frame as words;

use crate::frame::{Ext, Gpdf, Mpdu};
use gp_base::Octets;
use gp_base::field::{
    NoRoom, add, add_mic_if, add_number16, add_number32_if, add_octet, add_src_if,
};

/// Whether a value is one that some octets decode to (IEEE 802.15.4, 7.2; Zigbee PRO Green Power, A.1.4.1).
pub fn valid(mpdu: &Mpdu) -> bool
    ensures { IsTrue result ↔ IsValid mpdu.now }
{
    has_the_fields(&mpdu.frame) && has_room(mpdu)
}

/// The octets that decode to a valid value (IEEE 802.15.4, 7.2; Zigbee PRO Green Power, A.1.4.1). There is one such
/// list. Numbers of more than one octet are least significant octet first.
pub fn encode(mpdu: &Mpdu) -> Octets
    requires { IsValid mpdu.now }
    ensures { Frame mpdu.now result }
{
    match spell(mpdu) {
        Ok(octets) => octets,
        Err(_) => unreachable!(),
    }
}

/// The header octets of a frame, at most ten: NWK frame control, extension, SrcID and counter, as far as they are there.
/// They are what a MIC covers besides the command (Zigbee PRO Green Power, A.1.5.4).
pub fn header(frame: &Gpdf) -> Octets
    requires { level_of frame.now ≤ 3 }
    ensures octets { result ≡ words.header frame.now }
    ensures size { length result ≤ 10 }
{
    match spell_header(frame) {
        Ok(octets) => octets,
        Err(_) => unreachable!(),
    }
}

#[tactic(auto, unfolding(crate::specs::Frame::header))]
fn spell_header(frame: &Gpdf) -> Result<Octets, NoRoom>
    requires { level_of frame.now ≤ 3 }
    ensures { MatchResult result (λ octets. octets ≡ words.header frame.now) (λ _. 127 < length (words.header frame.now)) }
{
    let mut out = Octets::new();
    add_octet(&mut out, frame.control())?;
    add_ext(&mut out, frame.ext)?;
    add_src_if(&mut out, frame.src)?;
    add_number32_if(&mut out, frame.counter)?;
    Ok(out)
}

// Whether the level is one that a frame may have, and each field is there where it is to be.
#[tactic(auto, unfolding(crate::specs::Widths::has_fields))]
fn has_the_fields(frame: &Gpdf) -> bool
    ensures value { result ≡ has_fields frame.now }
    ensures level { OnTrue result (level_of frame.now ≤ 3) }
{
    let level = frame.level();
    let is_secured = level > 1;
    (level == 0 || level == 2 || level == 3)
        && (level == 0 || !frame.maintenance)
        && frame.src.is_some() == (!frame.maintenance || frame.ext.is_some())
        && frame.counter.is_some() == is_secured
        && frame.mic.is_some() == is_secured
        && !frame.body.as_slice().is_empty()
}

// Whether a value has at most 125 octets.
fn has_room(mpdu: &Mpdu) -> bool
    requires { level_of mpdu.now.frame ≤ 3 }
    ensures room { IsTrue result ↔ (length (in_parts mpdu.now) ≤ 125) }
    ensures octets { OnTrue result (IsOctets (in_parts mpdu.now)) }
    ensures widths { OnTrue result (HasWidths mpdu.now) }
{
    match spell(mpdu) {
        Ok(octets) => octets.as_slice().len() <= 125,
        Err(_) => false,
    }
}

// The octets of a value, where they are at most 127.
fn spell(mpdu: &Mpdu) -> Result<Octets, NoRoom>
    requires { level_of mpdu.now.frame ≤ 3 }
    ensures octets { MatchResult result (λ octets. octets ≡ in_parts mpdu.now) (λ _. 127 < length (in_parts mpdu.now)) }
    ensures widths { OnOk result (HasWidths mpdu.now) }
{
    let mut out = Octets::new();
    add_head(&mut out, mpdu)?;
    add_fields(&mut out, &mpdu.frame)?;
    Ok(out)
}

#[tactic(auto, unfolding(crate::specs::Widths::head_octets))]
fn add_head(out: &mut Octets, mpdu: &Mpdu) -> Result<(), NoRoom>
    ensures added { Adds (head_octets mpdu.now) out.old out.new result }
    ensures seq { OnOk result (mpdu.now.seq < 2 ^ 8) }
    ensures pan { OnOk result (mpdu.now.pan < 2 ^ 16) }
    ensures dest { OnOk result (mpdu.now.dest < 2 ^ 16) }
{
    add(out, &[1, 8, mpdu.seq])?;
    add_number16(out, mpdu.pan)?;
    add_number16(out, mpdu.dest)?;
    add_octet(out, mpdu.frame.control())
}

#[tactic(auto, unfolding(crate::specs::Widths::field_octets))]
fn add_fields(out: &mut Octets, frame: &Gpdf) -> Result<(), NoRoom>
    requires { level_of frame.now ≤ 3 }
    ensures added { Adds (field_octets frame.now) out.old out.new result }
    ensures src { OnOk result (IfSome frame.now.src (λ src. src.0 < 2 ^ 32)) }
    ensures counter { OnOk result (IfSome frame.now.counter (λ counter. counter < 2 ^ 32)) }
    ensures mic { OnOk result (IfSome frame.now.mic (λ mic. length mic ≡ 4)) }
{
    add_ext(out, frame.ext)?;
    add_src_if(out, frame.src)?;
    add_number32_if(out, frame.counter)?;
    add(out, frame.body.as_slice())?;
    add_mic_if(out, frame.mic)
}

fn add_ext(out: &mut Octets, ext: Option<Ext>) -> Result<(), NoRoom>
    requires { IfSome ext (λ e. e.level ≤ 3) }
    ensures { Adds (optional (λ e. octet (extension e)) ext) out.old out.new result }
{
    match ext {
        Some(ext) => add_octet(out, ext.octet()),
        None => Ok(()),
    }
}
