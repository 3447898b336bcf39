//! The top call.

ghost use Rattle.std.specs.Prelude.{◌≡◌, ℕ, [], IfSome, IfNone, None, ◌↔◌};
ghost use Rattle.std.specs.Option.{IsSomeAnd};
ghost use Rattle.gp_app.specs.Command.{command_of, OnDecode, OnFormat, OnPcap, OnSim, OnSink, ExceptSim};
ghost use Rattle.gp_app.specs.Formatting.{FormatCompletes, FormatLeaves};
ghost use Rattle.gp_app.specs.Leaves.{Completes, Leaves};
ghost use Rattle.gp_lines.specs.Leaves.{Counts};
ghost use Rattle.gp_listing.specs.Form.{listing_of};
ghost use Rattle.gp_life.specs.Ending as life;
ghost use Rattle.gp_life.specs.Ending.{DiskCounts, Remembers};
ghost use Rattle.gp_life.specs.Living.{Lives, StopsAt as LifeStops};
ghost use Rattle.gp_lines.specs.Leaves as lines;
ghost use Rattle.gp_net.specs.World.{Stands, bits_of};
ghost use Rattle.gp_packets.specs.Leaves as packets;
ghost use Rattle.gp_simulation.specs.Playing as playing;
ghost use Rattle.gp_simulation.specs.Playing.{Plays, StopsAt};
ghost use Rattle.gp_store.specs.Recovery.{Told};

use crate::command::{Command, read_command};
use crate::decoding::Decoding;
use gp_base::{Out, Source, Word};
use gp_disk::Disk;
use gp_life::live;
use gp_lines::{DiskReason, Status, run_lines};
use gp_listing::ListingForm;
use gp_net::World;
use gp_packets::list_packets;
use gp_simulation::simulate;
use gp_store::{StoreFault, format};
use std::alloc::Global;

/// How many octets of a listing may wait to be written.
const HELD: usize = 65_536;

/// Does what the arguments ask for: reads the source, writes the output or the disk, answers how that ended, and hands the
/// disk back, and the world that a script was played on.
///
/// `decode` lists the lines of a capture, a line each, and `decode --json` lists them as JSON. A key behind them,
/// 32 hexadecimal digits, opens secured frames: the listing says whether the MIC of each is right under it, and where it
/// is shows the command in clear. `format` writes an empty store on the disk. `pcap` lists the packets of a capture file, a line
/// each, with the same key behind it or none. `sim` plays the lines of a script on a network and writes what is reported; the disk
/// is as it was. `sink` runs one sink over the disk for one life, line by line, and writes what it reports of each line before the next
/// is judged.
pub fn run<S: Source, O: Out, D: Disk>(
    alloc: Global,
    words: &[Word],
    source: &mut S,
    out: &mut O,
    disk: D,
) -> (Status, D, Option<World>)
    ensures usage { IfNone (command_of words.now) ((result.0 ≡ Status.Usage) × (source.new ≡ source.old) × (out.new ≡ out.old) × (result.1 ≡ disk)) }

    ensures leaves { OnDecode (command_of words.now) (λ form. Leaves (listing_of form) result.0
        (S.left source.old) (S.left source.new) (O.written out.old) (O.written out.new)) }
    ensures counts { OnDecode (command_of words.now) (λ form. Counts result.0 (S.faults source.old) (S.faults source.new) (O.faults out.old) (O.faults out.new)) }
    ensures completes { OnDecode (command_of words.now) (λ form. Completes (listing_of form) result.0 (S.left source.old) (S.faults source.old) (S.faults source.new) (O.faults out.old) (O.faults out.new)) }
    ensures keeps_the_disk { OnDecode (command_of words.now) (λ form. result.1 ≡ disk) }

    ensures formats { OnFormat (command_of words.now) (FormatLeaves D.Disk result.0 disk result.1) }
    ensures format_completes { OnFormat (command_of words.now) (FormatCompletes result.0 (D.tally disk).size (D.image disk) (D.faults disk) (D.faults result.1)) }
    ensures reads_and_writes_nothing { OnFormat (command_of words.now) ((source.new ≡ source.old) × (out.new ≡ out.old)) }

    ensures packets { OnPcap (command_of words.now) (λ key. packets.Leaves key result.0
        (S.left source.old) (S.left source.new) (O.written out.old) (O.written out.new)) }
    ensures packets_count { OnPcap (command_of words.now) (λ key. Counts result.0 (S.faults source.old) (S.faults source.new) (O.faults out.old) (O.faults out.new)) }
    ensures packets_complete { OnPcap (command_of words.now) (λ key. packets.Completes result.0 (S.left source.old) (S.faults source.old) (S.faults source.new) (O.faults out.old) (O.faults out.new)) }
    ensures packets_keep_the_disk { OnPcap (command_of words.now) (λ key. result.1 ≡ disk) }

    ensures plays { OnSim (command_of words.now) (IsSomeAnd result.2 (λ world. lines.Leaves (Plays Stands bits_of) (StopsAt Stands bits_of) 0 world result.0
        (S.left source.old) (S.left source.new) (O.written out.old) (O.written out.new))) }
    ensures plays_count { OnSim (command_of words.now) (Counts result.0 (S.faults source.old) (S.faults source.new) (O.faults out.old) (O.faults out.new)) }
    ensures plays_complete { OnSim (command_of words.now) (playing.Completes result.0 (S.left source.old) (S.faults source.old) (S.faults source.new) (O.faults out.old) (O.faults out.new)) }
    ensures plays_keep_the_disk { OnSim (command_of words.now) (result.1 ≡ disk) }
    ensures lives { OnSink (command_of words.now) (lines.Leaves (Lives D.Disk disk) (LifeStops D.Disk disk) 0 result.1 result.0
        (S.left source.old) (S.left source.new) (O.written out.old) (O.written out.new)) }
    ensures lives_count { OnSink (command_of words.now) (Counts result.0 (S.faults source.old) (S.faults source.new) (O.faults out.old) (O.faults out.new)) }
    ensures lives_disk_count { OnSink (command_of words.now) (DiskCounts result.0 (D.faults disk) (D.faults result.1)) }
    ensures remembers { OnSink (command_of words.now) (Told (D.image disk) (Remembers D.Disk disk (S.left source.old) (S.left source.new) (O.written out.old) (O.written out.new) result.1)) }
    ensures lives_complete { OnSink (command_of words.now) (life.Completes D.Disk disk result.0 (S.left source.old) (S.faults source.old) (S.faults source.new) (O.faults out.old) (O.faults out.new) result.1) }

    ensures no_other_world { ExceptSim (command_of words.now) (result.2 ≡ None) }
{
    match read_command(words) {
        None => (Status::Usage, disk, None),
        Some(Command::Decode(form)) => (list_lines(alloc, form, source, out), disk, None),
        Some(Command::Format) => {
            let (status, disk) = format_disk(disk);
            (status, disk, None)
        }
        Some(Command::Pcap(key)) => (list_packets(alloc, key, source, out), disk, None),
        Some(Command::Sim) => {
            let (status, world) = simulate(alloc, source, out);
            (status, disk, Some(world))
        }
        Some(Command::Sink) => {
            let (status, disk) = live(alloc, source, out, disk);
            (status, disk, None)
        }
    }
}

// Writes an empty store.
fn format_disk<D: Disk>(disk: D) -> (Status, D)
    ensures formats { FormatLeaves D.Disk result.0 disk result.1 }
    ensures completes { FormatCompletes result.0 (D.tally disk).size (D.image disk) (D.faults disk) (D.faults result.1) }
{
    formatted(disk)
}

// The same, but for what it completes.
fn formatted<D: Disk>(mut disk: D) -> (Status, D)
    ensures formats { FormatLeaves D.Disk result.0 disk result.1 }
{
    match format(&mut disk) {
        Ok(()) => (Status::Done, disk),
        Err(StoreFault::DiskShort) => (Status::DiskRefused(DiskReason::DiskShort), disk),
        Err(StoreFault::AlreadyFormatted) => (
            Status::DiskRefused(DiskReason::AlreadyFormatted),
            disk,
        ),
        Err(StoreFault::DiskFault) => (Status::DiskFault, disk),
        // A formatting looks at no slot and takes no memory.
        Err(StoreFault::NotFormatted | StoreFault::SlotForm { .. } | StoreFault::NoMemory) => {
            unreachable!()
        }
    }
}

// Lists the lines of a source.
fn list_lines<S: Source, O: Out>(
    alloc: Global,
    form: ListingForm,
    source: &mut S,
    out: &mut O,
) -> Status
    ensures leaves { Leaves (listing_of form) result (S.left source.old) (S.left source.new) (O.written out.old) (O.written out.new) }
    ensures counts { Counts result (S.faults source.old) (S.faults source.new) (O.faults out.old) (O.faults out.new) }
    ensures completes { Completes (listing_of form) result (S.left source.old) (S.faults source.old) (S.faults source.new) (O.faults out.old) (O.faults out.new) }
{
    list_all(alloc, form, source, out)
}

// The same, but for what it completes.
fn list_all<S: Source, O: Out>(
    alloc: Global,
    form: ListingForm,
    source: &mut S,
    out: &mut O,
) -> Status
    ensures leaves { Leaves (listing_of form) result (S.left source.old) (S.left source.new) (O.written out.old) (O.written out.new) }
    ensures counts { Counts result (S.faults source.old) (S.faults source.new) (O.faults out.old) (O.faults out.new) }
{
    let mut decoding = Decoding { alloc, form };
    run_lines(alloc, &mut decoding, HELD, source, out)
}
