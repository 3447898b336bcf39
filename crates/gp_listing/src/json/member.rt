//! Members of a JSON object. The clause `whole` of each says that it brings no number with a fraction or an exponent, whose
//! text would not be stated.

ghost use Rattle.std.specs.Prelude.{◌≡◌, false, OnOk};
ghost use Rattle.serde_json.specs.Data.{null, boolean, string, put as with_member};
ghost use Rattle.serde_json.specs.View.{view, members_view};
ghost use Rattle.serde_json.specs.Written.{has_float, members_have_float};
ghost use Rattle.gp_listing.specs.Json.{hex, hex16, decimal, or_null};

use gp_base::{Key, Octets};
use serde_json::{Map, Value};
use std::alloc::{AllocError, Global};

/// Puts a value that has no float at a key.
pub(crate) fn put_value(
    alloc: Global,
    map: &mut Map<String, Value>,
    key: &str,
    value: Value,
) -> Result<(), AllocError>
    requires { has_float (view value) ≡ false }
    ensures member { OnOk result (members_view map.new.entries ≡ with_member key.now (view value) (members_view map.old.entries)) }
    ensures whole { OnOk result (members_have_float (members_view map.old.entries) ≡ false → members_have_float (members_view map.new.entries) ≡ false) }
{
    serde_json::put(map, alloc, key, value)
}

/// Puts `null`.
pub(crate) fn put_null(
    alloc: Global,
    map: &mut Map<String, Value>,
    key: &str,
) -> Result<(), AllocError>
    ensures member { OnOk result (members_view map.new.entries ≡ with_member key.now null (members_view map.old.entries)) }
    ensures whole { OnOk result (members_have_float (members_view map.old.entries) ≡ false → members_have_float (members_view map.new.entries) ≡ false) }
{
    put_value(alloc, map, key, Value::Null)
}

/// Puts `true` or `false`.
pub(crate) fn put_flag(
    alloc: Global,
    map: &mut Map<String, Value>,
    key: &str,
    flag: bool,
) -> Result<(), AllocError>
    ensures member { OnOk result (members_view map.new.entries ≡ with_member key.now (boolean flag) (members_view map.old.entries)) }
    ensures whole { OnOk result (members_have_float (members_view map.old.entries) ≡ false → members_have_float (members_view map.new.entries) ≡ false) }
{
    put_value(alloc, map, key, Value::from(flag))
}

/// Puts a number.
pub(crate) fn put_number(
    alloc: Global,
    map: &mut Map<String, Value>,
    key: &str,
    number: u64,
) -> Result<(), AllocError>
    ensures member { OnOk result (members_view map.new.entries ≡ with_member key.now (decimal number) (members_view map.old.entries)) }
    ensures whole { OnOk result (members_have_float (members_view map.old.entries) ≡ false → members_have_float (members_view map.new.entries) ≡ false) }
{
    put_value(alloc, map, key, Value::from(number))
}

/// Puts a text.
pub(crate) fn put_text(
    alloc: Global,
    map: &mut Map<String, Value>,
    key: &str,
    text: &str,
) -> Result<(), AllocError>
    ensures member { OnOk result (members_view map.new.entries ≡ with_member key.now (string text.now) (members_view map.old.entries)) }
    ensures whole { OnOk result (members_have_float (members_view map.old.entries) ≡ false → members_have_float (members_view map.new.entries) ≡ false) }
{
    put_value(alloc, map, key, Value::try_from_str(alloc, text)?)
}

/// Puts octets as a text of hexadecimal digits, two an octet, in upper case.
pub(crate) fn put_hex(
    alloc: Global,
    map: &mut Map<String, Value>,
    key: &str,
    octets: &[u8],
) -> Result<(), AllocError>
    ensures member { OnOk result (members_view map.new.entries ≡ with_member key.now (hex octets.now) (members_view map.old.entries)) }
    ensures whole { OnOk result (members_have_float (members_view map.old.entries) ≡ false → members_have_float (members_view map.new.entries) ≡ false) }
{
    put_value(
        alloc,
        map,
        key,
        Value::from(hex::encode_upper(alloc, octets)?),
    )
}

/// Puts a number that may be absent.
pub(crate) fn put_optional_number(
    alloc: Global,
    map: &mut Map<String, Value>,
    key: &str,
    number: Option<u64>,
) -> Result<(), AllocError>
    ensures member { OnOk result (members_view map.new.entries ≡ with_member key.now (or_null decimal number) (members_view map.old.entries)) }
    ensures whole { OnOk result (members_have_float (members_view map.old.entries) ≡ false → members_have_float (members_view map.new.entries) ≡ false) }
{
    match number {
        Some(number) => put_number(alloc, map, key, number),
        None => put_null(alloc, map, key),
    }
}

/// Puts a number of two octets that may be absent, as four digits.
pub(crate) fn put_optional_hex16(
    alloc: Global,
    map: &mut Map<String, Value>,
    key: &str,
    number: Option<u16>,
) -> Result<(), AllocError>
    ensures member { OnOk result (members_view map.new.entries ≡ with_member key.now (or_null hex16 number) (members_view map.old.entries)) }
    ensures whole { OnOk result (members_have_float (members_view map.old.entries) ≡ false → members_have_float (members_view map.new.entries) ≡ false) }
{
    match number {
        Some(number) => put_hex(alloc, map, key, &number.to_be_bytes()),
        None => put_null(alloc, map, key),
    }
}

/// Puts octets that may be absent.
pub(crate) fn put_optional_octets(
    alloc: Global,
    map: &mut Map<String, Value>,
    key: &str,
    octets: &Option<Octets>,
) -> Result<(), AllocError>
    ensures member { OnOk result (members_view map.new.entries ≡ with_member key.now (or_null hex octets.now) (members_view map.old.entries)) }
    ensures whole { OnOk result (members_have_float (members_view map.old.entries) ≡ false → members_have_float (members_view map.new.entries) ≡ false) }
{
    match octets {
        Some(octets) => put_hex(alloc, map, key, octets.as_slice()),
        None => put_null(alloc, map, key),
    }
}

/// Puts a message integrity code that may be absent.
pub(crate) fn put_mic(
    alloc: Global,
    map: &mut Map<String, Value>,
    key: &str,
    mic: &Option<[u8; 4]>,
) -> Result<(), AllocError>
    ensures member { OnOk result (members_view map.new.entries ≡ with_member key.now (or_null hex mic.now) (members_view map.old.entries)) }
    ensures whole { OnOk result (members_have_float (members_view map.old.entries) ≡ false → members_have_float (members_view map.new.entries) ≡ false) }
{
    match mic {
        Some(mic) => put_hex(alloc, map, key, mic),
        None => put_null(alloc, map, key),
    }
}

/// Puts a key of a cipher that may be absent.
pub(crate) fn put_cipher_key(
    alloc: Global,
    map: &mut Map<String, Value>,
    key: &str,
    cipher_key: &Option<Key>,
) -> Result<(), AllocError>
    ensures member { OnOk result (members_view map.new.entries ≡ with_member key.now (or_null (λ k. hex k.0) cipher_key.now) (members_view map.old.entries)) }
    ensures whole { OnOk result (members_have_float (members_view map.old.entries) ≡ false → members_have_float (members_view map.new.entries) ≡ false) }
{
    match cipher_key {
        Some(octets) => put_hex(alloc, map, key, &octets.0),
        None => put_null(alloc, map, key),
    }
}
