//! The text of a report.

ghost use Rattle.std.specs.Prelude.{◌≡◌, ◌++◌, OnOk};
ghost use Rattle.gp_telling.specs.Texts.{line_of_entry, report_text};

use gp_base::NoMemory;
use gp_script::{Entry, print_entry};
use std::alloc::Global;

/// Adds the text of a report: the line of each entry, with an LF. Want of memory may leave a front of it added.
pub fn put_report(alloc: Global, report: &[Entry], text: &mut Vec<u8>) -> Result<(), NoMemory>
    ensures { OnOk result (text.new.items ≡ text.old.items ++ report_text report.now) }
{
    let mut rest = report;
    'entries: while let Some((entry, others)) = rest.split_first() {
        put_entry(alloc, entry, text)?;
        rest = others;
    }
    Ok(())
}

// Adds the line of an entry, with an LF.
#[tactic(auto, unfolding(crate::specs::Texts::line_of_entry))]
fn put_entry(alloc: Global, entry: &Entry, text: &mut Vec<u8>) -> Result<(), NoMemory>
    ensures { OnOk result (text.new.items ≡ text.old.items ++ line_of_entry entry.now) }
{
    let line = print_entry(alloc, entry)?;
    if text.extend_from_slice(line.as_slice()).is_err() {
        return Err(NoMemory);
    }
    if text.push(b'\n').is_err() {
        return Err(NoMemory);
    }
    Ok(())
}
