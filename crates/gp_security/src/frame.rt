//! Frames of devices, sealed and opened.

ghost use Rattle.std.specs.Prelude.{◌≡◌, ◌+◌, ◌<◌, ◌≤◌, ◌^◌, ◌==◌, List, ℕ, Ok, Some, false, length, IfOk, IfSome, OnErr, if◌then◌else◌};
ghost use Rattle.std.specs.Option.{option_map_or};
ghost use Rattle.std.specs.Result.{OkIff, result_ok};
ghost use Rattle.gp_frames.specs.Frame.{IsCarried, IsValid, level_of};
ghost use Rattle.gp_security.specs.Protection as words;
ghost use Rattle.gp_security.specs.Protection.{Good, IsHead, protected, message, opened, frame_calls, with_body, in_clear};

use crate::nonce::{mic_of, nonce};
use gp_base::field::add;
use gp_base::{Key, Octets, Src, Steps};
use gp_ccm::{BadTag, Sealed, TagSize, seal, unseal};
use gp_frames::{Ext, Gpdf, Mpdu, header};
use std::sync::ledger::Ledger;

/// Seals a command into a frame: its body and MIC take the place of those of `head` (Zigbee PRO Green Power, A.1.5.4).
/// `command` is a command identifier and its payload, at most 104 octets, as many as a secured frame holds. It takes no
/// memory. Each call of the block cipher is one step, and there are at most 17.
pub fn seal_frame<L: Ledger>(head: &Mpdu, command: &[u8], key: &Key, steps: &mut Steps<L>) -> Mpdu
    requires head { IsHead head.now.frame }
    requires some { 0 < length command.now }
    requires room { length command.now ≤ 104 }
    ensures value { result ≡ with_body head.now (protected key.now.0 head.now.frame command.now) }
    ensures good { Good key.now.0 result.frame command.now }
    ensures valid { IsValid result }
    ensures cost { steps.new ≡ steps.old + frame_calls head.now.frame command.now }
    ensures bound { steps.new ≤ steps.old + 17 }
{
    let sealed = protect(&head.frame, command, key, steps);
    let mic = mic_of(sealed.tag.as_slice());
    let frame = sealed_frame(&head.frame, sealed.cipher.as_slice(), mic);
    mpdu_of(head.seq, head.pan, head.dest, frame)
}

/// A frame with this body and this MIC.
fn sealed_frame(frame: &Gpdf, body: &[u8], mic: [u8; 4]) -> Gpdf
    requires { length body.now ≤ 127 }
    ensures { result ≡ record frame.now { body = body.now; mic = Some mic } }
{
    let Some(body) = Octets::of(body) else {
        unreachable!();
    };
    Gpdf {
        maintenance: frame.maintenance,
        auto: frame.auto,
        ext: frame.ext,
        src: frame.src,
        counter: frame.counter,
        body,
        mic: Some(mic),
    }
}

/// The MPDU of these parts, whose numbers fit their octets.
fn mpdu_of(seq: u8, pan: u16, dest: u16, frame: Gpdf) -> Mpdu
    ensures value { result ≡ record { seq = seq; pan = pan; dest = dest; frame = frame } }
    ensures seq { seq < 2 ^ 8 }
    ensures pan { pan < 2 ^ 16 }
    ensures dest { dest < 2 ^ 16 }
    ensures src { IfSome frame.src (λ source. source.0 < 2 ^ 32) }
    ensures counter { IfSome frame.counter (λ number. number < 2 ^ 32) }
{
    Mpdu {
        seq,
        pan,
        dest,
        frame,
    }
}

/// Opens a frame at level 2 or 3 (Zigbee PRO Green Power, A.1.5.4). The answer is the command octets in clear exactly
/// where the frame carries some under the key, and else `BadTag`. A frame to the device is opened with the nonce to the
/// device. It takes no memory. Each call of the block cipher is one step, and there are at most 17; after `BadTag` only
/// the steps have changed.
pub fn unseal_frame<L: Ledger>(
    frame: &Gpdf,
    key: &Key,
    steps: &mut Steps<L>,
) -> Result<Octets, BadTag>
    requires carried { IsCarried frame.now }
    requires secured { 2 ≤ level_of frame.now }
    ensures value { result_ok result ≡ opened key.now.0 frame.now }
    // The frame carries what is read, and what it carries is read.
    ensures found { IfOk result (λ command. Good key.now.0 frame.now command) }
    ensures only { (command : List ℕ) → Good key.now.0 frame.now command → result ≡ Ok command }
    ensures refused { OnErr result ((command : List ℕ) → Good key.now.0 frame.now command → ⊥) }
    ensures size { IfOk result (λ command. length command ≡ length frame.now.body) }
    ensures cost { steps.new ≡ steps.old + frame_calls frame.now frame.now.body }
    ensures bound { steps.new ≤ steps.old + 17 }
{
    let Some(mic) = frame.mic else {
        unreachable!();
    };
    open(frame, mic, key, steps)
}

/// The body and the tag that protect a command.
fn protect<L: Ledger>(frame: &Gpdf, command: &[u8], key: &Key, steps: &mut Steps<L>) -> Sealed
    requires level { level_of frame.now ≤ 3 }
    requires room { length command.now ≤ 104 }
    ensures value { (result.cipher, result.tag) ≡ protected key.now.0 frame.now command.now }
    ensures body { length result.cipher ≡ length command.now }
    ensures tag { length result.tag ≡ 4 }
    ensures cost { steps.new ≡ steps.old + frame_calls frame.now command.now }
{
    let nonce = nonce_of(frame);
    let covered = covered(frame, command);
    let authenticated = covered.authenticated.as_slice();
    let sealed = seal(
        key,
        &nonce,
        authenticated,
        covered.message,
        TagSize::Four,
        steps,
    );
    Sealed {
        cipher: body_of(frame, sealed.cipher.as_slice(), command),
        tag: sealed.tag,
    }
}

/// The command octets of a frame at level 2 or 3, where this MIC is right.
#[tactic(auto, using(crate::proofs::Opening::tag_is))]
fn open<L: Ledger>(
    frame: &Gpdf,
    mic: [u8; 4],
    key: &Key,
    steps: &mut Steps<L>,
) -> Result<Octets, BadTag>
    requires level { level_of frame.now ≤ 3 }
    requires room { length frame.now.body ≤ 104 }
    ensures value { let command = in_clear key.now.0 frame.now in
        OkIff result (mic ≡ (protected key.now.0 frame.now command).1) command }
    ensures size { IfOk result (λ command. length command ≡ length frame.now.body) }
    ensures cost { steps.new ≡ steps.old + frame_calls frame.now frame.now.body }
{
    let nonce = nonce_of(frame);
    let body = frame.body.as_slice();
    let covered = covered(frame, body);
    let authenticated = covered.authenticated.as_slice();
    match unseal(key, &nonce, authenticated, covered.message, &mic, steps) {
        Ok(message) => Ok(body_of(frame, message.as_slice(), body)),
        Err(error) => Err(error),
    }
}

/// What a MIC covers of a frame and the octets of its command: those that it authenticates in clear, and those that are
/// encrypted too.
#[derive(Drop)]
struct Coverage<'a> {
    authenticated: Octets,
    message: &'a [u8],
}

/// At level 3 the header in clear and the command encrypted, at level 2 both in clear.
fn covered<'a>(frame: &Gpdf, command: &'a [u8]) -> Coverage<'a>
    requires level { level_of frame.now ≤ 3 }
    requires room { length command.now ≤ 104 }
    ensures authenticated { result.authenticated ≡ words.authenticated frame.now command.now }
    ensures message { result.message.now ≡ message frame.now command.now }
{
    let mut authenticated = header(frame);
    if frame.level() == 3 {
        return Coverage {
            authenticated,
            message: command,
        };
    }
    match add(&mut authenticated, command) {
        Ok(()) => Coverage {
            authenticated,
            message: &[],
        },
        Err(_) => unreachable!(),
    }
}

/// The other side of the command octets: at level 3 what the cipher made of them, and at level 2 themselves.
fn body_of(frame: &Gpdf, ciphered: &[u8], command: &[u8]) -> Octets
    requires ciphered { length ciphered.now ≤ 127 }
    requires command { length command.now ≤ 127 }
    ensures { result ≡ (if level_of frame.now == 3 then ciphered.now else command.now) }
{
    let three = frame.level() == 3;
    match Octets::of(if three { ciphered } else { command }) {
        Some(body) => body,
        None => unreachable!(),
    }
}

/// The nonce of a frame.
#[tactic(auto, unfolding(crate::specs::Protection::nonce_of))]
fn nonce_of(frame: &Gpdf) -> [u8; 13]
    ensures { result ≡ words.nonce_of frame.now }
{
    let source = source_of(frame.src);
    let counter = frame.counter.unwrap_or(0);
    if is_to_device(frame.ext) {
        nonce(0, source, counter)
    } else {
        nonce(source, source, counter)
    }
}

/// The SrcID as a number, 0 where it is absent.
fn source_of(src: Option<Src>) -> u32
    ensures { result ≡ option_map_or (λ s. s.0) src 0 }
{
    match src {
        Some(src) => src.0,
        None => 0,
    }
}

/// Whether a frame goes to the device.
fn is_to_device(ext: Option<Ext>) -> bool
    ensures { result ≡ option_map_or (λ e. e.to_device) ext false }
{
    match ext {
        Some(ext) => ext.to_device,
        None => false,
    }
}
