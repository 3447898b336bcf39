//! The arguments of the command line.

ghost use Rattle.std.specs.Prelude.{◌≡◌, codes};
ghost use Rattle.std.specs.Str.{bytes_eq};
ghost use Rattle.gp_app.specs.Command as spec;
ghost use Rattle.gp_app.specs.Command.{command_of, key_of};

use gp_base::{Key, Word};
use gp_listing::{ListingForm, Style};

/// What the arguments ask for.
#[derive(Clone, Copy)]
pub enum Command {
    /// The listing of a capture, in this form.
    Decode(ListingForm),
    /// An empty store on the disk.
    Format,
    /// The listing of a capture file, under a key that may be absent.
    Pcap(Option<Key>),
    /// The report of a script.
    Sim,
    /// The life of a sink over the disk.
    Sink,
}

/// What these arguments ask for, and `None` where they are no form of the command line.
pub fn read_command(words: &[Word]) -> Option<Command>
    ensures { result ≡ command_of words.now }
{
    let [word, others @ ..] = words else {
        return None;
    };
    if word.as_slice() == b"decode".as_slice() {
        return listing_words(others);
    }
    if word.as_slice() == b"format".as_slice() {
        return format_words(others);
    }
    if word.as_slice() == b"pcap".as_slice() {
        return pcap_words(others);
    }
    if word.as_slice() == b"sim".as_slice() {
        return sim_words(others);
    }
    if word.as_slice() == b"sink".as_slice() {
        return sink_words(others);
    }
    None
}

// What follows `decode`.
fn listing_words(words: &[Word]) -> Option<Command>
    ensures { result ≡ spec.listing_words words.now }
{
    match words {
        [] => Some(listed(Style::Text, None)),
        [word] => {
            if is_json(word) {
                return Some(listed(Style::Json, None));
            }
            let key = read_key(word.as_slice())?;
            Some(listed(Style::Text, Some(key)))
        }
        [word, other] => {
            if !is_json(word) {
                return None;
            }
            let key = read_key(other.as_slice())?;
            Some(listed(Style::Json, Some(key)))
        }
        _ => None,
    }
}

// What follows `format`.
fn format_words(words: &[Word]) -> Option<Command>
    ensures { result ≡ spec.format_words words.now }
{
    match words {
        [] => Some(Command::Format),
        _ => None,
    }
}

// What follows `pcap`.
fn pcap_words(words: &[Word]) -> Option<Command>
    ensures { result ≡ spec.pcap_words words.now }
{
    match words {
        [] => Some(Command::Pcap(None)),
        [word] => {
            let key = read_key(word.as_slice())?;
            Some(Command::Pcap(Some(key)))
        }
        _ => None,
    }
}

// What follows `sim`.
fn sim_words(words: &[Word]) -> Option<Command>
    ensures { result ≡ spec.sim_words words.now }
{
    match words {
        [] => Some(Command::Sim),
        _ => None,
    }
}

// What follows `sink`.
fn sink_words(words: &[Word]) -> Option<Command>
    ensures { result ≡ spec.sink_words words.now }
{
    match words {
        [] => Some(Command::Sink),
        _ => None,
    }
}

// The listing in a style, under a key that may be absent.
fn listed(style: Style, key: Option<Key>) -> Command
    ensures { result ≡ spec.listed style key }
{
    Command::Decode(ListingForm { style, key })
}

fn is_json(word: &Word) -> bool
    ensures { result ≡ bytes_eq word.now (codes "--json") }
{
    word.as_slice() == b"--json".as_slice()
}

// A key of 32 hexadecimal digits of either case.
#[tactic(auto, unfolding(crate::specs::Command::key_of))]
fn read_key(digits: &[u8]) -> Option<Key>
    ensures { result ≡ key_of digits.now }
{
    if digits.len() != 32 {
        return None;
    }
    let mut octets = [0u8; 16];
    match hex::decode_to_slice(digits, &mut octets) {
        Ok(()) => Some(Key(octets)),
        Err(_) => None,
    }
}
