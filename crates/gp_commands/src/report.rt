//! Attribute reports.

ghost use Rattle.std.specs.Prelude.{◌≡◌, ◌<◌, ◌≤◌, ◌^◌, ◌↔◌, ◌∷◌, ◌++◌, length, IsTrue, OnOk};
ghost use Rattle.gp_base.specs.Field.{Adds};
ghost use Rattle.gp_base.specs.Table.{answer};
ghost use Rattle.gp_commands.specs.Report.{entries_reason, report_reason, report_at, entry_reason, next_place, AreRecords};
ghost use Rattle.gp_commands.specs.Forms.{report_id};
ghost use Rattle.std.specs.Int.{w16, to_le_bytes};

use crate::command::{CommandReason, GpdCommand, short};
use crate::form::REPORT;
use crate::value::value_size;
use gp_base::field::{NoRoom, add, add_number16, add_octet, number16, octet_or_zero, rest};
use gp_base::{Octets, Reader};

/// Reads a report after its identifier: a cluster, and entries to the end.
pub(crate) fn read_report(octets: &[u8], reader: &mut Reader) -> Result<GpdCommand, CommandReason>
    requires same { reader.old.octets ≡ octets.now }
    requires place { reader.old.place ≡ 1 }
    requires room { length octets.now ≤ 117 }
    ensures { result ≡ answer (report_reason octets.now) (report_at octets.now) }
{
    let Ok(cluster) = number16(reader) else {
        return Err(short(octets));
    };
    if let Some(reason) = first_bad_entry(octets, 3) {
        return Err(reason);
    }
    Ok(GpdCommand::Report {
        cluster,
        records: rest(reader),
    })
}

/// What is wrong with the first ill entry among those from a place on, and `None` where none is ill.
pub(crate) fn first_bad_entry(octets: &[u8], start: usize) -> Option<CommandReason>
    requires within { start ≤ length octets.now }
    requires room { length octets.now ≤ 127 }
    ensures { result ≡ entries_reason (length octets.now) octets.now start }
{
    let mut place = start;
    while place < octets.len() {
        match entry_end(octets, place) {
            Ok(end) => place = end,
            Err(reason) => return Some(reason),
        }
    }
    None
}

/// Where the entry ends that begins at a place, or what is wrong with it.
fn entry_end(octets: &[u8], place: usize) -> Result<usize, CommandReason>
    requires within { place < length octets.now }
    requires room { length octets.now ≤ 127 }
    ensures { result ≡ answer (entry_reason octets.now place) (next_place octets.now place) }
{
    if octets.len() - place < 3 {
        return Err(short(octets));
    }
    let kind = octets[place + 2];
    let Some(size) = value_size(kind, octet_or_zero(octets, place + 3)) else {
        return Err(CommandReason::ValueKind {
            place: place as u8 + 2,
        });
    };
    if octets.len() - place - 3 < size {
        return Err(short(octets));
    }
    Ok(place + 3 + size)
}

/// Whether octets are entries, one after another.
pub(crate) fn are_records(octets: &[u8]) -> bool
    requires { length octets.now ≤ 127 }
    ensures { IsTrue result ↔ AreRecords octets.now }
{
    first_bad_entry(octets, 0).is_none()
}

/// Adds a report.
pub(crate) fn add_report(out: &mut Octets, cluster: u16, records: &Octets) -> Result<(), NoRoom>
    ensures added { Adds (report_id ∷ (to_le_bytes w16 cluster ++ records.now)) out.old out.new result }
    ensures width { OnOk result (cluster < 2 ^ 16) }
{
    add_octet(out, REPORT)?;
    add_number16(out, cluster)?;
    add(out, records.as_slice())
}
