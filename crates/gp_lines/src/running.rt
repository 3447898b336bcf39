//! A whole run over the lines of a source.

ghost use Rattle.std.specs.Prelude.{◌≡◌, ℕ, []};
ghost use Rattle.gp_lines.specs.Leaves.{Leaves, Counts};
ghost use Rattle.gp_lines.specs.Work.{Chain, Halts};
ghost use Rattle.gp_lines.specs.LastWords.{Says};

use crate::progress::Progress;
use crate::status::Status;
use crate::stop::Stop;
use crate::work::{Halt, Work};
use crate::writing::last_words;
use gp_base::{Out, Source};
use std::alloc::Global;

/// How many octets one read asks for.
const PIECE: usize = 16_384;

/// Lets a work take the lines of a source one by one, and writes the text that it gives for them. It is Done where the source
/// was read to its end.
///
/// Lines end with LF, before which a CR is dropped; a last line without LF counts where it isn't empty. There are at most
/// 1,000,000 lines of at most 1,024 octets: at the first line beyond that it is TooLong. Where the work stops at a line, the
/// status says why and the text of the lines before it is written, but for NoMemory, after which nothing more is written.
///
/// At most `held` octets of text wait while the work takes a line: with 0 the text of each line is written before the work
/// takes the next. All text is written before more is read.
pub fn run_lines<W: Work, S: Source, O: Out>(
    alloc: Global,
    work: &mut W,
    held: usize,
    source: &mut S,
    out: &mut O,
) -> Status
    requires { W.awaits work.old 1 }
    ensures leaves { Leaves (Chain W.goes work.old 1) (Halts W.goes W.stops work.old) held work.new result (S.left source.old) (S.left source.new) (O.written out.old) (O.written out.new) }
    ensures counts { Counts result (S.faults source.old) (S.faults source.new) (O.faults out.old) (O.faults out.new) }
{
    let Ok(text) = Vec::with_capacity(alloc, 4 * PIECE) else {
        return Status::NoMemory;
    };
    let mut progress = Progress::start(text);
    let mut buffer = [0u8; PIECE];
    'pieces: loop {
        let Ok(count) = source.read(&mut buffer) else {
            return Status::ReadFault;
        };
        if count == 0 {
            break;
        }
        match progress.take_piece(work, out, held, &buffer[..count]) {
            Ok(()) => {}
            Err(stop) => return stopped(out, &progress.text, stop),
        }
        let Ok(()) = progress.flush(out) else {
            return Status::WriteFault;
        };
    }
    match progress.finish(work) {
        Ok(()) => last_words(out, &progress.text, Status::Done),
        Err(stop) => stopped(out, &progress.text, stop),
    }
}

// Writes the text of the lines before the stop, and answers its status.
fn stopped<O: Out>(out: &mut O, text: &[u8], stop: Stop) -> Status
    ensures { Says stop result (O.written out.old) (O.written out.new) text.now (O.faults out.old) (O.faults out.new) }
{
    match stop {
        Stop::TooLong => last_words(out, text, Status::TooLong),
        Stop::WriteFault => Status::WriteFault,
        Stop::Halted(_, Halt::NoMemory) => Status::NoMemory,
        Stop::Halted(line, Halt::Bad(reason)) => last_words(
            out,
            text,
            Status::BadLine { line, reason },
        ),
        Stop::Halted(_, Halt::DiskFault) => last_words(out, text, Status::DiskFault),
        Stop::Halted(_, Halt::DiskRefused(reason)) => {
            last_words(out, text, Status::DiskRefused(reason))
        }
        Stop::Halted(_, Halt::Worn { generation }) => {
            last_words(out, text, Status::Worn { generation })
        }
    }
}
