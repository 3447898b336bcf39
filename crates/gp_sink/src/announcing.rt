//! What a sink tells of its current pairings, and the groups that it is in.
ghost use Rattle.std.specs.Prelude.{◌≡◌, ◌<◌, ◌↔◌, List, length, IsTrue, IfSome};
ghost use Rattle.gp_ideal.specs.declared.ledger.Change.{Change as LedgerChange};
ghost use Rattle.gp_sink.specs.Announced as words;
ghost use Rattle.gp_sink.specs.Announced.{IsMember, IsInGroup};
ghost use Rattle.gp_sink.specs.Fits.{Fits};
ghost use Rattle.gp_sink.specs.Sink.{IsMessage};

use crate::messages::pairing_sent;
use crate::ruling::known;
use gp_base::{Mode, Src};
use gp_cluster::Sent;
use gp_ideal::Config;
use gp_rows::Table;

/// The message that tells of the current pairing of a SrcID, where there is one.
pub fn announced(table: &Table, config: &Config, source: Src) -> Option<Sent>
    ensures announced { (ledger : List LedgerChange) → Fits table.now ledger → result ≡ words.announced config.now ledger source.0 }
    ensures message { IfSome result IsMessage }
{
    match known(table, source) {
        Some(known) => Some(pairing_sent(config, &known.values, known.floor)),
        None => None,
    }
}

// Whether frames are groupcast in this mode.
fn is_groupcast(mode: Mode) -> bool
    ensures { result ≡ words.is_groupcast mode }
{
    match mode {
        Mode::Derived | Mode::Commissioned => true,
        Mode::Unicast => false,
    }
}

// Whether this row is a current pairing whose frames are groupcast to the group.
fn is_member(table: &Table, at: u16, group: u16) -> bool
    requires { at < length table.now }
    ensures { IsTrue result ↔ IsMember table.now group at }
{
    let row = table.row(at);
    if !is_groupcast(row.mode) || row.group != group {
        return false;
    }
    match table.current(row.src) {
        Some(current) => current == at,
        None => false,
    }
}

/// Whether the frames of a current pairing are groupcast to this group.
pub fn is_in_group(table: &Table, group: u16) -> bool
    ensures { IsTrue result ↔ IsInGroup table.now group }
{
    for at in 0..table.count() {
        if is_member(table, at, group) {
            return true;
        }
    }
    false
}
