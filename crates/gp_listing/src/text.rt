//! Text at the end of a list of octets.

ghost use Rattle.std.specs.Prelude.{◌≡◌, ◌++◌, [], ◌∷◌, OnOk, decimal};
ghost use Rattle.hex.specs.Hex.{encode_upper};

use itoa::Buffer;
use std::alloc::AllocError;

const DIGITS: [u8; 16] = *b"0123456789ABCDEF";

/// Adds text.
pub fn push_text(text: &mut Vec<u8>, more: &str) -> Result<(), AllocError>
    ensures { OnOk result (text.new.items ≡ text.old.items ++ more.now) }
{
    text.extend_from_slice(more.as_bytes())?;
    Ok(())
}

/// Adds octets as hexadecimal digits, two an octet, in upper case.
pub fn push_hex(text: &mut Vec<u8>, octets: &[u8]) -> Result<(), AllocError>
    ensures { OnOk result (text.new.items ≡ text.old.items ++ encode_upper octets.now) }
{
    for octet in octets {
        text.push(DIGITS[(*octet / 16) as usize])?;
        text.push(DIGITS[(*octet % 16) as usize])?;
    }
    Ok(())
}

/// Adds a label and octets as hexadecimal digits.
pub fn push_field(text: &mut Vec<u8>, label: &str, octets: &[u8]) -> Result<(), AllocError>
    ensures { OnOk result (text.new.items ≡ text.old.items ++ (label.now ++ encode_upper octets.now)) }
{
    push_text(text, label)?;
    push_hex(text, octets)
}

/// Adds a number in decimal digits.
pub fn push_number(text: &mut Vec<u8>, number: u64) -> Result<(), AllocError>
    ensures { OnOk result (text.new.items ≡ text.old.items ++ decimal number) }
{
    let mut buffer = Buffer::new();
    push_text(text, buffer.format(number))
}
