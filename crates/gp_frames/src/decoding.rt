//! Reading a frame.

ghost use Rattle.std.specs.Prelude.{◌≡◌, ◌++◌, ◌+◌, ◌%◌, ◌==◌, ◌||◌, is_some, nat_le, ◌<◌, ◌≤◌, ℕ, List, Ok, Err, Some, length, IfSome, IfOk, IfErr, OnOk};
ghost use Rattle.gp_base.specs.Table.{answer, first_of};
ghost use Rattle.gp_frames.specs.declared.frame.Mpdu.{Mpdu};
ghost use Rattle.gp_frames.specs.declared.frame.FrameReason.{FrameReason};
ghost use Rattle.gp_frames.specs.Frame.{Frame};
ghost use Rattle.std.specs.Option.{option_map, option_map_or};
ghost use Rattle.gp_base.specs.Field.{octet_at};
ghost use Rattle.gp_base.specs.Walk.{TakesTo};
ghost use Rattle.gp_frames.specs.Reasons as words;
ghost use Rattle.gp_frames.specs.Reasons.{src_place, mac_lines, control_lines, extension_lines, field_lines, first_reason};
ghost use Rattle.gp_frames.specs.Reading.{ext_in, ext_at, reading};
ghost use Rattle.gp_frames.specs.Inside.{head_at, fields_at};

use crate::frame::{Ext, FrameReason, Gpdf, Mpdu};
use gp_base::field::{
    Short, is_set, mic_if, number16, number32_if, octet, octet_if, octets as take_octets, src_if,
};
use gp_base::{Octets, Reader, Src};

/// Reads one MPDU (IEEE 802.15.4, 7.2; Zigbee PRO Green Power, A.1.4.1). Numbers of more than one octet
/// are least significant octet first. The reason of a refusal is the first fault from the left.
pub fn decode(octets: &[u8]) -> Result<Mpdu, FrameReason>
    // What is read is spelled so.
    ensures found { IfOk result (λ mpdu. Frame mpdu octets.now) }
    // What is spelled so is read.
    ensures only { (mpdu : Mpdu) → Frame mpdu octets.now → result ≡ Ok mpdu }
    // A refusal has the first reason, and each reason is a refusal.
    ensures refused { IfErr result (λ reason. first_reason octets.now ≡ Some reason) }
    ensures reason { (reason : FrameReason) → first_reason octets.now ≡ Some reason → result ≡ Err reason }
    // What it gives, by places.
    ensures exact { result ≡ reading octets.now }
    ensures level { IfOk result (λ mpdu. IfSome mpdu.frame.ext (λ ext. ext.level ≤ 3)) }
{
    read(octets)
}

// What stands before the extension.
#[derive(Clone, Copy, Debug)]
struct Head {
    seq: u8,
    pan: u16,
    dest: u16,
    control: u8,
}

// What stands behind it.
#[derive(Debug, Drop)]
struct Fields {
    src: Option<Src>,
    counter: Option<u32>,
    body: Octets,
    mic: Option<[u8; 4]>,
}

// Reads by places.
#[tactic(auto, using(crate::proofs::Steps::table_steps, crate::proofs::Extended::src_told, crate::proofs::Extended::security_told), unfolding(crate::specs::Reading::reading, crate::specs::Reading::value_at, crate::specs::Reading::frame_at, crate::specs::Reasons::first_reason))]
fn read(octets: &[u8]) -> Result<Mpdu, FrameReason>
    ensures exact { result ≡ reading octets.now }
    ensures level { IfOk result (λ mpdu. IfSome mpdu.frame.ext (λ ext. ext.level ≤ 3)) }
{
    let mut reader = Reader::new(octets);
    let head = take_head(&mut reader)?;
    let ext = take_ext(&mut reader, head.control)?;
    let fields = take_fields(&mut reader, has_src(head.control, ext), has_security(ext))?;
    Ok(Mpdu {
        seq: head.seq,
        pan: head.pan,
        dest: head.dest,
        frame: Gpdf {
            maintenance: head.control % 4 == 1,
            auto: is_set(head.control, 64),
            ext,
            src: fields.src,
            counter: fields.counter,
            body: fields.body,
            mic: fields.mic,
        },
    })
}

// The fault of a missing octet.
fn short(reader: &Reader) -> FrameReason
    requires { length reader.now.octets ≤ 125 }
    ensures { result ≡ FrameReason.Short (length reader.now.octets) }
{
    FrameReason::Short {
        place: reader.length() as u8,
    }
}

// Takes the MAC header and the NWK frame control, of which it tests the first alone.
#[tactic(auto, unfolding(crate::specs::Reasons::mac_lines))]
fn take_head(reader: &mut Reader) -> Result<Head, FrameReason>
    requires { reader.old.place ≡ 0 }
    ensures value { result ≡ answer (first_of (mac_lines reader.old.octets)) (head_at reader.old.octets) }
    ensures octets { reader.new.octets ≡ reader.old.octets }
    ensures place { OnOk result (reader.new.place ≡ 8) }
    ensures long { OnOk result (8 ≤ length reader.old.octets) }
    ensures within { OnOk result (length reader.old.octets ≤ 125) }
{
    if reader.length() > 125 {
        return Err(FrameReason::TooLong);
    }
    let Ok(first) = octet(reader) else {
        return Err(short(reader));
    };
    let Ok(second) = octet(reader) else {
        return Err(short(reader));
    };
    if !(first == 1 && second == 8) {
        return Err(FrameReason::MacForm);
    }
    match take_addresses(reader) {
        Ok(head) => Ok(head),
        Err(_) => Err(short(reader)),
    }
}

// Takes sequence number, addresses and NWK frame control.
fn take_addresses(reader: &mut Reader) -> Result<Head, Short>
    requires { reader.old.place ≡ 2 }
    ensures taken { TakesTo 8 (head_at reader.old.octets) reader.old reader.new result }
    ensures octets { reader.new.octets ≡ reader.old.octets }
{
    let seq = octet(reader)?;
    let pan = number16(reader)?;
    let dest = number16(reader)?;
    let control = octet(reader)?;
    Ok(Head {
        seq,
        pan,
        dest,
        control,
    })
}

// Takes the extension, where the NWK frame control says that it is there, and tests both.
#[tactic(auto, using(crate::proofs::Steps::table_steps), unfolding(crate::specs::Reasons::control_lines, crate::specs::Reasons::extension_lines, crate::specs::Reading::ext_at))]
fn take_ext(reader: &mut Reader, control: u8) -> Result<Option<Ext>, FrameReason>
    requires control { control ≡ octet_at reader.old.octets 7 }
    requires place { reader.old.place ≡ 8 }
    requires long { 8 ≤ length reader.old.octets }
    requires within { length reader.old.octets ≤ 125 }
    ensures value { result ≡ answer (first_of (control_lines reader.old.octets ++ extension_lines reader.old.octets)) (ext_at reader.old.octets) }
    ensures octets { reader.new.octets ≡ reader.old.octets }
    ensures place { OnOk result (reader.new.place ≡ src_place reader.old.octets) }
    ensures inside { OnOk result (src_place reader.old.octets ≤ length reader.old.octets) }
    ensures level { IfOk result (λ ext. IfSome ext (λ e. e.level ≤ 3)) }
{
    if control % 4 >= 2 {
        return Err(FrameReason::FrameKind);
    }
    if control / 4 % 16 != 3 {
        return Err(FrameReason::Version);
    }
    let Ok(extension) = octet_if(reader, is_set(control, 128)) else {
        return Err(short(reader));
    };
    let bits = extension.unwrap_or(0);
    if bits % 8 != 0 {
        return Err(FrameReason::AppId);
    }
    if bits / 8 % 4 == 1 {
        return Err(FrameReason::LevelOne);
    }
    if control % 4 == 1 && bits / 8 % 4 >= 2 {
        return Err(FrameReason::SecuredMaintenance);
    }
    Ok(ext_of(extension))
}

// The extension in its octet.
fn ext_of(extension: Option<u8>) -> Option<Ext>
    ensures value { result ≡ option_map ext_in extension }
    ensures level { IfSome result (λ e. e.level ≤ 3) }
{
    match extension {
        Some(bits) => Some(Ext {
            level: bits / 8 % 4,
            individual: is_set(bits, 32),
            rx_after: is_set(bits, 64),
            to_device: is_set(bits, 128),
        }),
        None => None,
    }
}

// Whether a frame has a SrcID.
fn has_src(control: u8, ext: Option<Ext>) -> bool
    ensures { result ≡ ((control % 4 == 0) || is_some ext) }
{
    control % 4 == 0 || ext.is_some()
}

// Whether a frame has a counter and a MIC.
fn has_security(ext: Option<Ext>) -> bool
    ensures { result ≡ nat_le 2 (option_map_or (λ e. e.level) ext 0) }
{
    match ext {
        Some(ext) => ext.level >= 2,
        None => false,
    }
}

// Takes what stands behind the extension.
#[tactic(auto, unfolding(crate::specs::Reasons::field_lines, crate::specs::Reading::src_at, crate::specs::Reading::counter_at, crate::specs::Reading::body_at, crate::specs::Reading::mic_at))]
fn take_fields(
    reader: &mut Reader,
    has_src: bool,
    has_security: bool,
) -> Result<Fields, FrameReason>
    requires src { has_src ≡ words.has_src reader.old.octets }
    requires security { has_security ≡ words.has_security reader.old.octets }
    requires place { reader.old.place ≡ src_place reader.old.octets }
    requires inside { src_place reader.old.octets ≤ length reader.old.octets }
    requires within { length reader.old.octets ≤ 125 }
    ensures { result ≡ answer (first_of (field_lines reader.old.octets)) (fields_at reader.old.octets) }
{
    let Ok(src) = src_if(reader, has_src) else {
        return Err(short(reader));
    };
    let Ok(counter) = number32_if(reader, has_security) else {
        return Err(short(reader));
    };
    let mic_size = if has_security { 4 } else { 0 };
    let left = reader.length() - reader.place();
    if left < mic_size {
        return Err(short(reader));
    }
    if left == mic_size {
        let place = reader.place() as u8;
        return Err(FrameReason::NoCommand { place });
    }
    let Ok(body) = take_octets(reader, left - mic_size) else {
        return Err(short(reader));
    };
    let Ok(mic) = mic_if(reader, has_security) else {
        return Err(short(reader));
    };
    Ok(Fields {
        src,
        counter,
        body,
        mic,
    })
}
