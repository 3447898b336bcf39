//! The verdict on an offer, by the rows alone: nothing is remembered yet.
ghost use Rattle.std.specs.Prelude.{◌≡◌, ◌≤◌, List, IfSome, Some};
ghost use Rattle.gp_ideal.specs.declared.ledger.Change.{Change as LedgerChange};
ghost use Rattle.gp_ideal.specs.declared.ledger.Change.TheVariants.{Pair};
ghost use Rattle.gp_ideal.specs.Messages as messages;
ghost use Rattle.gp_ideal.specs.Paired as words;
ghost use Rattle.gp_ideal.specs.Verdict as ideal;
ghost use Rattle.gp_base.specs.Table.{by_table};
ghost use Rattle.gp_sink.specs.Fits.{Fits};
ghost use Rattle.gp_rows.specs.declared.row.Row.{Row as OneRow};
ghost use Rattle.gp_sink.specs.Ruled.{MayMake};
ghost use Rattle.gp_sink.specs.Inside.{Agrees, PairsAt};
ghost use Rattle.gp_sink.specs.Sink.{GivesMessage};
ghost use Rattle.gp_sink.specs.Verdict.{ruling_of, offered};

use crate::messages::pairing_sent;
use crate::ruling::{Ruling, says};
use crate::verdict::Verdict;
use gp_base::{Mode, Src, derived_group};
use gp_commission::{Offer, OfferReason};
use gp_ideal::{Change, Config, Values};
use gp_rows::{ROWS, Table};

// The group of a mode.
fn group_for(mode: Mode, set_up: u16, source: Src) -> u16
    ensures { result ≡ messages.group_for mode set_up source.0 }
{
    match mode {
        Mode::Derived => derived_group(source),
        Mode::Commissioned => set_up,
        Mode::Unicast => 0,
    }
}

// The values of the row of an offer: what is offered, with the sink's mode and the group of that mode.
fn values_for(config: &Config, offer: &Offer) -> Values
    ensures { result ≡ offered config.now offer.now }
{
    Values {
        src: offer.src,
        key: offer.key,
        kind: offer.kind,
        level: offer.level,
        mode: config.mode,
        group: group_for(config.mode, config.group, offer.src),
        device: offer.device,
    }
}

// A device is paired in this row, with this floor.
fn pairs(config: &Config, row: u16, values: Values, floor: u32, counter: u32) -> Ruling
    ensures ruling { ruling_of result ≡ ideal.remembers (Pair values counter) (ideal.Paired row values.src floor (messages.pairing_sent config.now values floor)) }
    ensures change { result.change ≡ Some (Pair values counter) }
    ensures agrees { (rows : List OneRow) → PairsAt rows row floor (Some (Pair values counter)) → Agrees rows result.verdict result.change }
    ensures message { GivesMessage result.verdict }
{
    Ruling {
        verdict: Verdict::Paired {
            row,
            source: values.src,
            floor,
            message: pairing_sent(config, &values, floor),
        },
        change: Some(Change::Pair { values, counter }),
    }
}

// The verdict on a pairing under a SrcID that may be paired: the row, old or new, takes the greater floor.
fn rule_values(table: &Table, config: &Config, values: Values, counter: u32) -> Ruling
    requires above { 1 ≤ values.src.0 }
    requires below { values.src.0 ≤ 0xFFFFFFF8 }
    ensures ruling { (ledger : List LedgerChange) → Fits table.now ledger → ruling_of result ≡ by_table (words.room_lines ledger values) (words.pairs config.now ledger values counter) }
    ensures due { IfSome result.change (MayMake table.now) }
    ensures agrees { Agrees table.now result.verdict result.change }
    ensures message { GivesMessage result.verdict }
{
    let count = table.count();
    match table.of_pair(values.src, &values.key) {
        Some(at) => {
            let floor = table.row(at).floor.max(counter);
            pairs(config, at, values, floor, counter)
        }
        None => {
            if count == ROWS {
                return says(Verdict::Full);
            }
            pairs(config, count, values, counter, counter)
        }
    }
}

/// The verdict on an offer.
#[tactic(auto, unfolding(gp_ideal::specs::Paired::paired))]
pub fn rule_offer(table: &Table, config: &Config, offer: &Offer) -> Ruling
    ensures ruling { (ledger : List LedgerChange) → Fits table.now ledger → ruling_of result ≡ words.paired config.now ledger (offered config.now offer.now) offer.now.counter }
    ensures due { IfSome result.change (MayMake table.now) }
    ensures agrees { Agrees table.now result.verdict result.change }
    ensures message { GivesMessage result.verdict }
{
    if !offer.src.pairable() {
        return says(Verdict::Refused(OfferReason::BadSource));
    }
    if offer.counter == u32::MAX {
        return says(Verdict::Refused(OfferReason::CounterEnd));
    }
    rule_values(table, config, values_for(config, offer), offer.counter)
}
