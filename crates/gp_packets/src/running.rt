//! A whole run over a capture file.

ghost use Rattle.std.specs.Prelude.{◌≡◌, ℕ, []};
ghost use Rattle.gp_lines.specs.Leaves.{Counts};
ghost use Rattle.gp_packets.specs.Leaves.{Leaves, Completes};
ghost use Rattle.gp_packets.specs.LastWords.{Says, Ends};

use crate::progress::Progress;
use crate::stop::Stop;
use gp_base::{Key, Out, Source};
use gp_lines::{Status, last_words};
use gp_pcap::Pcap;
use std::alloc::Global;

/// How many octets one read asks for.
const PIECE: usize = 16_384;

/// Lists the packets of a capture file of the pcap kind, a line each: its number, counted from 0, its seconds and fraction, and
/// the listing of its frame. A key opens secured frames. It is Done where the source was read to its end.
///
/// There are at most 1,000,000 packets: at the first octet of another one it is TooLong. Where the file is refused it is
/// BadPcap, with the place and the reason. All packets before that are listed. All text is written before more is read.
pub fn list_packets<S: Source, O: Out>(
    alloc: Global,
    key: Option<Key>,
    source: &mut S,
    out: &mut O,
) -> Status
    ensures leaves { Leaves key result (S.left source.old) (S.left source.new) (O.written out.old) (O.written out.new) }
    ensures counts { Counts result (S.faults source.old) (S.faults source.new) (O.faults out.old) (O.faults out.new) }
    ensures completes { Completes result (S.left source.old) (S.faults source.old) (S.faults source.new) (O.faults out.old) (O.faults out.new) }
{
    list_all(alloc, key, source, out)
}

// The same, but for what it completes.
fn list_all<S: Source, O: Out>(
    alloc: Global,
    key: Option<Key>,
    source: &mut S,
    out: &mut O,
) -> Status
    ensures leaves { Leaves key result (S.left source.old) (S.left source.new) (O.written out.old) (O.written out.new) }
    ensures counts { Counts result (S.faults source.old) (S.faults source.new) (O.faults out.old) (O.faults out.new) }
{
    let Ok(text) = Vec::with_capacity(alloc, 4 * PIECE) else {
        return Status::NoMemory;
    };
    let mut progress = Progress::start(text);
    let mut buffer = [0u8; PIECE];
    'pieces: loop {
        let Ok(count) = source.read(&mut buffer) else {
            return Status::ReadFault;
        };
        if count == 0 {
            break;
        }
        match progress.take_piece(key, out, &buffer[..count]) {
            Ok(()) => {}
            Err(stop) => return stopped(out, &progress.text, stop),
        }
        let Ok(()) = progress.flush(out) else {
            return Status::WriteFault;
        };
    }
    ended(&progress.reader)
}

// The status at the end of a file.
fn ended(reader: &Pcap) -> Status
    ensures { Ends reader.now result }
{
    match reader.end() {
        Ok(()) => Status::Done,
        Err((place, reason)) => Status::BadPcap { place, reason },
    }
}

// Writes the text of the packets before the stop, and answers its status.
fn stopped<O: Out>(out: &mut O, text: &[u8], stop: Stop) -> Status
    ensures { Says stop result (O.written out.old) (O.written out.new) text.now (O.faults out.old) (O.faults out.new) }
{
    match stop {
        Stop::TooLong => last_words(out, text, Status::TooLong),
        Stop::Bad(place, reason) => last_words(out, text, Status::BadPcap { place, reason }),
        Stop::WriteFault => Status::WriteFault,
        Stop::NoMemory => Status::NoMemory,
    }
}
