//! The forms of the listing.

ghost use Rattle.std.specs.Prelude.{◌≡◌, ◌≤◌, ◌++◌, None, Err, length, OnOk};
ghost use Rattle.std.specs.Option.{IsSomeAnd};
ghost use Rattle.gp_listing.specs.Form.{listing_of};

use crate::json::push_json;
use crate::listing::{Unlisted, push_listing};
use gp_base::Key;
use std::alloc::Global;

/// How a line of the listing is written.
#[derive(Clone, Copy)]
pub enum Style {
    /// A line of fields, `name=value`.
    Text,
    /// A compact JSON object (RFC 8259).
    Json,
}

/// A form of the listing.
#[derive(Clone, Copy)]
pub struct ListingForm {
    /// How a line is written.
    pub style: Style,
    /// The key that opens secured frames, where one is given.
    pub key: Option<Key>,
}

/// Adds the listing of a line in this form, without a line end.
pub fn push_line(
    alloc: Global,
    form: ListingForm,
    text: &mut Vec<u8>,
    line: &[u8],
) -> Result<(), Unlisted>
    requires { length line.now ≤ 1024 }
    ensures ok { OnOk result (IsSomeAnd (listing_of form line.now) (λ listed. text.new.items ≡ text.old.items ++ listed)) }
    ensures form { result ≡ Err Unlisted.Form → listing_of form line.now ≡ None }
    ensures kept { result ≡ Err Unlisted.Form → text.new.items ≡ text.old.items }
{
    match form.style {
        Style::Text => push_listing(text, form.key, line),
        Style::Json => push_json(alloc, text, form.key, line),
    }
}
