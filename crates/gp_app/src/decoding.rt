//! The listing of a capture as a work that takes its lines.

ghost use Rattle.std.specs.Prelude.{◌≡◌, ◌∷◌, ◌++◌, [], None};
ghost use Rattle.std.specs.Option.{IsSomeAnd};
ghost use Rattle.gp_listing.specs.Form.{listing_of};

use gp_lines::{Halt, Work};
use gp_listing::{ListingForm, Unlisted, push_line};
use gp_script::LineReason;
use std::alloc::Global;

/// The listing of lines in a form.
#[derive(Drop)]
pub struct Decoding {
    /// Where memory comes from.
    pub alloc: Global,
    /// The form.
    pub form: ListingForm,
}

impl Work for Decoding {
    ghost use Rattle.gp_app.specs.Decoding.{Goes, Stops};

    ghost goes = { λ old number line text new. Goes old line text new };

    ghost awaits = { λ work number. Unit {0} };

    ghost stops = { λ old number line halt new. Stops old line halt new };

    fn take(&mut self, _number: u64, line: &[u8], text: &mut Vec<u8>) -> Result<(), Halt> {
        match push_line(self.alloc, self.form, text, line) {
            Ok(()) => {}
            Err(Unlisted::Form) => return Err(Halt::Bad(LineReason::Form)),
            Err(Unlisted::NoMemory) => return Err(Halt::NoMemory),
        }
        if text.push(b'\n').is_err() {
            return Err(Halt::NoMemory);
        }
        Ok(())
    }
}
