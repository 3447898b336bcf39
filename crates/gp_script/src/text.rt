//! Text at the end of a list of octets.

ghost use Rattle.std.specs.Prelude.{◌≡◌, ◌++◌, [], ◌∷◌, OnOk, decimal};
ghost use Rattle.hex.specs.Hex.{encode_upper};
ghost use Rattle.gp_script.specs.Kinds.{octets_text, flag_text};

use itoa::Buffer;
use std::alloc::AllocError;

const DIGITS: [u8; 16] = *b"0123456789ABCDEF";

/// Adds text.
pub(crate) fn push_text(text: &mut Vec<u8>, more: &str) -> Result<(), AllocError>
    ensures { OnOk result (text.new.items ≡ text.old.items ++ more.now) }
{
    text.extend_from_slice(more.as_bytes())?;
    Ok(())
}

/// Adds octets as hexadecimal digits, two an octet, in upper case.
pub(crate) fn push_hex(text: &mut Vec<u8>, octets: &[u8]) -> Result<(), AllocError>
    ensures { OnOk result (text.new.items ≡ text.old.items ++ encode_upper octets.now) }
{
    for octet in octets {
        text.push(DIGITS[(*octet / 16) as usize])?;
        text.push(DIGITS[(*octet % 16) as usize])?;
    }
    Ok(())
}

/// Adds a number in decimal digits.
pub(crate) fn push_number(text: &mut Vec<u8>, number: u64) -> Result<(), AllocError>
    ensures { OnOk result (text.new.items ≡ text.old.items ++ decimal number) }
{
    let mut buffer = Buffer::new();
    push_text(text, buffer.format(number))
}

/// Adds a space and a word.
pub(crate) fn put_word(text: &mut Vec<u8>, word: &str) -> Result<(), AllocError>
    ensures { OnOk result (text.new.items ≡ text.old.items ++ (32 ∷ word.now)) }
{
    push_text(text, " ")?;
    push_text(text, word)
}

/// Adds a space and a number in decimal digits.
pub(crate) fn put_number(text: &mut Vec<u8>, number: u64) -> Result<(), AllocError>
    ensures { OnOk result (text.new.items ≡ text.old.items ++ (32 ∷ decimal number)) }
{
    push_text(text, " ")?;
    push_number(text, number)
}

/// Adds a space and octets as hexadecimal digits.
pub(crate) fn put_hex(text: &mut Vec<u8>, octets: &[u8]) -> Result<(), AllocError>
    ensures { OnOk result (text.new.items ≡ text.old.items ++ (32 ∷ encode_upper octets.now)) }
{
    push_text(text, " ")?;
    push_hex(text, octets)
}

/// Adds a space, a label and octets as hexadecimal digits.
pub(crate) fn put_labelled(text: &mut Vec<u8>, label: &str, octets: &[u8]) -> Result<(), AllocError>
    ensures { OnOk result (text.new.items ≡ text.old.items ++ (32 ∷ (label.now ++ encode_upper octets.now))) }
{
    put_word(text, label)?;
    push_hex(text, octets)
}

/// Adds a space and octets, or `-` for none.
pub(crate) fn put_octets(text: &mut Vec<u8>, octets: &[u8]) -> Result<(), AllocError>
    ensures { OnOk result (text.new.items ≡ text.old.items ++ (32 ∷ octets_text octets.now)) }
{
    match octets {
        [] => put_word(text, "-"),
        _ => put_hex(text, octets),
    }
}

/// Adds a space and a flag.
pub(crate) fn put_flag(text: &mut Vec<u8>, flag: bool) -> Result<(), AllocError>
    ensures { OnOk result (text.new.items ≡ text.old.items ++ (32 ∷ flag_text flag)) }
{
    put_word(text, if flag { "1" } else { "0" })
}
