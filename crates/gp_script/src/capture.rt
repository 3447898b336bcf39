//! Lines of a capture.

ghost use Rattle.std.specs.Prelude.{◌≡◌, ◌≤◌, ◌/◌, Some, None, length, take, drop, codes, if◌then◌else◌};
ghost use Rattle.std.specs.Result.{result_ok};
ghost use Rattle.std.specs.Str.{bytes_eq};
ghost use Rattle.hex.specs.Hex.{decode_of};
ghost use Rattle.gp_script.specs.Capture.{captured};

use crate::capacity::Capacity;

/// What a line of a capture holds.
#[derive(Clone, PartialEq, Eq, Debug, Drop)]
pub enum Capture {
    /// An MPDU as it was on the air, without FCS.
    Frame(Capacity),
    /// A message of the Green Power cluster: its ZCL header and what follows.
    Message(Capacity),
}

/// The line has none of the forms.
#[derive(Clone, Copy, PartialEq, Eq, Debug)]
pub struct NotALine;

/// Reads a line of a capture, of at most 1,024 octets without its line end. It has an even number of hexadecimal digits
/// of either case: behind `zcl ` those of a message, at least two, and else those of a frame, perhaps none. `NotALine`
/// comes exactly where it has neither form.
// Inlined, so that the octets of a frame or a message, over 500, are made where they are used and not copied there.
#[inline(always)]
pub fn read_capture(line: &[u8]) -> Result<Capture, NotALine>
    requires { length line.now ≤ 1024 }
    ensures { result_ok result ≡ captured line.now }
{
    let (is_message, digits) = digits_of(line);
    let count = digits.len() / 2;
    let mut octets = [0u8; 512];
    if !decode_digits(digits, &mut octets[..count]) {
        return Err(NotALine);
    }
    if !is_message {
        return Ok(Capture::Frame(Capacity::of(&octets[..count])));
    }
    if digits.is_empty() {
        return Err(NotALine);
    }
    Ok(Capture::Message(Capacity::of(&octets[..count])))
}

// Whether a line holds a message, and its digits.
fn digits_of(line: &[u8]) -> (bool, &[u8])
    ensures message { result.0 ≡ bytes_eq (take 4 line.now) (codes "zcl ") }
    ensures digits { result.1.now ≡ (if result.0 then drop 4 line.now else line.now) }
    ensures within { length result.1.now ≤ length line.now }
{
    match line.strip_prefix(b"zcl ") {
        Some(digits) => (true, digits),
        None => (false, line),
    }
}

// Writes the octets that the digits name. It is `false` exactly where the digits name none.
fn decode_digits(digits: &[u8], octets: &mut [u8]) -> bool
    requires { length octets.old ≡ length digits.now / 2 }
    ensures { result_ok (decode_of digits.now) ≡ (if result then Some octets.new else None) }
{
    hex::decode_to_slice(digits, octets).is_ok()
}
