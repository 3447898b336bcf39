//! The lines of a report about a sink's power.

ghost use Rattle.std.specs.Prelude.{◌≡◌, codes, Some, None};
ghost use Rattle.gp_script.specs.Kinds.{Reads};
ghost use Rattle.gp_script.specs.Report as spec;

use crate::kinds::number16;
use crate::report::Report;
use crate::words::Words;

/// What becomes of a sink's power, behind this keyword.
pub(crate) fn powered(keyword: &[u8], words: &mut Words) -> Option<Report>
    ensures { Reads (spec.powered keyword.now) words.old words.new result }
{
    if keyword == b"cut".as_slice() {
        return Some(Report::Cut);
    }
    if keyword == b"halted".as_slice() {
        return Some(Report::Halted);
    }
    if keyword == b"off".as_slice() {
        return Some(Report::Off);
    }
    if keyword == b"up".as_slice() {
        return Some(Report::Up {
            rows: number16(words)?,
        });
    }
    stood(keyword)
}

// What a line finds of a sink's power.
fn stood(keyword: &[u8]) -> Option<Report>
    ensures { (words : _) → Reads (spec.stood keyword.now) words words result }
{
    if keyword == b"armed".as_slice() {
        return Some(Report::Armed);
    }
    if keyword == b"dark".as_slice() {
        return Some(Report::Dark);
    }
    if keyword == b"running".as_slice() {
        return Some(Report::Running);
    }
    None
}
