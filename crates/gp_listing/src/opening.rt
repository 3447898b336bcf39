//! What a key tells of a frame.

ghost use Rattle.std.specs.Prelude.{◌≡◌, ◌<◌, ◌≤◌, length};
ghost use Rattle.gp_frames.specs.Frame.{IsCarried, level_of};
ghost use Rattle.gp_security.specs.Protection.{opened};
ghost use Rattle.gp_listing.specs.Listing.{tag_word};
ghost use Rattle.gp_listing.specs.Opening as words;
ghost use Rattle.gp_listing.specs.Opening.{by_mic, opening, shown_body};

use gp_base::{Key, Octets, Steps};
use gp_frames::Gpdf;
use gp_security::unseal_frame;
use std::marker::Brand;
use std::sync::ledger::{Blank, Ledger};

/// What a key tells of a frame.
#[derive(Drop)]
pub enum Opening {
    /// Nothing: no key was given, or the frame isn't secured.
    Untold,
    /// The MIC isn't right under the key.
    Bad,
    /// It is, and these are the command octets in clear.
    Good(Octets),
}

/// Opens a frame under a key, where there is one.
#[tactic(auto, unfolding(crate::specs::Opening::opening))]
pub fn open(key: Option<Key>, frame: &Gpdf) -> Opening
    requires { IsCarried frame.now }
    ensures value { result ≡ opening key frame.now }
    ensures size { length (shown_body result frame.now) ≡ length frame.now.body }
{
    let Some(key) = key else {
        return Opening::Untold;
    };
    if frame.level() <= 1 {
        return Opening::Untold;
    }
    open_secured::<Brand>(&key, frame, Blank::new(1))
}

// Opens a secured frame.
fn open_secured<L: Ledger>(key: &Key, frame: &Gpdf, blank: Blank) -> Opening
    requires carried { IsCarried frame.now }
    requires secured { 2 ≤ level_of frame.now }
    requires name { blank.name ≡ L.name }
    requires parts { blank.parts ≡ L.parts }
    requires some { 0 < L.parts }
    ensures value { result ≡ by_mic (opened key.now.0 frame.now) }
    ensures size { length (shown_body result frame.now) ≡ length frame.now.body }
{
    let mut steps = Steps::<L>::new(blank);
    match unseal_frame(frame, key, &mut steps) {
        Ok(command) => Opening::Good(command),
        Err(_) => Opening::Bad,
    }
}

impl Opening {
    /// The command that is shown: in clear where the MIC is right, and else as it was received.
    pub fn body<'a>(&'a self, frame: &'a Gpdf) -> &'a [u8]
        ensures { result.now ≡ words.shown_body self.now frame.now }
    {
        match self {
            Opening::Good(command) => command.as_slice(),
            Opening::Untold => frame.body.as_slice(),
            Opening::Bad => frame.body.as_slice(),
        }
    }

    /// Whether what is shown is in clear, which a body at level 3 isn't as it was received.
    pub fn is_clear(&self, frame: &Gpdf) -> bool
        ensures { result ≡ words.is_clear self.now frame.now }
    {
        match self {
            Opening::Good(_) => true,
            Opening::Untold => frame.level() != 3,
            Opening::Bad => frame.level() != 3,
        }
    }

    /// Whether the MIC is right, as a word.
    pub fn tag(&self) -> &'static str
        ensures { result.now ≡ tag_word self.now }
    {
        match self {
            Opening::Untold => "-",
            Opening::Bad => "bad",
            Opening::Good(_) => "good",
        }
    }
}
