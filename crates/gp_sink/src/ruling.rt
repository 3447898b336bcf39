//! The verdict on octets, by the rows alone: nothing is remembered yet.
ghost use Rattle.std.specs.Prelude.{◌≡◌, ◌<◌, ◌≤◌, ◌+◌, List, length, IfSome, None};
ghost use Rattle.gp_frames.specs.Frame.{IsCarried, level_of};
ghost use Rattle.gp_frames.specs.Reading.{reading};
ghost use Rattle.gp_security.specs.Protection.{source_of, counter_of};
ghost use Rattle.gp_security.specs.Protection as protection;
ghost use Rattle.gp_base.specs.Identity.{is_individual};
ghost use Rattle.gp_rows.specs.declared.row.Row.{Row as OneRow};
ghost use Rattle.gp_translate.specs.Acts as translation;
ghost use Rattle.gp_ideal.specs.declared.ledger.Change.{Change as LedgerChange};
ghost use Rattle.gp_ideal.specs.Heard as words;
ghost use Rattle.gp_ideal.specs.Ledger as ledgers;
ghost use Rattle.gp_ideal.specs.Verdict as ideal;
ghost use Rattle.gp_sink.specs.Fits.{Fits, shown};
ghost use Rattle.gp_sink.specs.Ruled.{MayMake, HasNoneCurrent, IsOfUnknown};
ghost use Rattle.gp_sink.specs.Inside.{Agrees, HasFloor, IsAbove};
ghost use Rattle.gp_sink.specs.Sink.{GivesMessage};
ghost use Rattle.gp_sink.specs.Verdict.{ruling_of};

use crate::messages::removal_sent;
use crate::verdict::{Cause, Verdict};
use gp_base::{Octets, Src, Steps};
use gp_commands::read;
use gp_commission::OfferReason;
use gp_frames::{Gpdf, decode};
use gp_ideal::{Change, Known, Values};
use gp_rows::{Row, Table};
use gp_security::unseal_frame;
use gp_translate::{Acts, Rules, translate};
use std::sync::ledger::Ledger;

/// A verdict, with the change that has to be remembered before it is given.
#[derive(Clone, Debug, PartialEq, Eq, Drop)]
pub struct Ruling {
    /// The verdict.
    pub verdict: Verdict,
    /// The change, where there is one.
    pub change: Option<Change>,
}

/// A verdict with nothing to remember.
pub fn says(verdict: Verdict) -> Ruling
    ensures { result ≡ record { verdict = verdict; change = None } }
{
    Ruling {
        verdict,
        change: None,
    }
}

// A frame is dropped.
fn drops(cause: Cause) -> Ruling
    ensures { result ≡ record { verdict = Verdict.Dropped cause; change = None } }
{
    says(Verdict::Dropped(cause))
}

/// The values of a row.
pub fn values_in(row: &Row) -> Values
    ensures { result ≡ shown row.now }
{
    Values {
        src: row.src,
        key: row.key,
        kind: row.kind,
        level: row.level,
        mode: row.mode,
        group: row.group,
        device: row.device,
    }
}

/// What is known of the current pairing of a SrcID.
pub fn known(table: &Table, source: Src) -> Option<Known>
    ensures known { (ledger : List LedgerChange) → Fits table.now ledger → result ≡ ledgers.known ledger source.0 }
    ensures there { IfSome result (HasFloor table.now source.0) }
{
    match table.current(source) {
        Some(at) => {
            let row = table.row(at);
            Some(Known {
                row: at,
                values: values_in(row),
                floor: row.floor,
            })
        }
        None => None,
    }
}

// What is done on command octets.
fn acts(rules: &Rules, source: Src, command: &[u8]) -> Acts
    requires { length command.now ≤ 117 }
    ensures { result ≡ translation.acts rules.now source command.now }
{
    match read(command) {
        Ok(command) => translate(rules, source, &command),
        Err(_) => Acts::none(),
    }
}

// Whether the SecurityKey bit isn't as the kind of the key wants it.
fn is_wrong_key(frame: &Gpdf, values: &Values) -> bool
    ensures { result ≡ words.differ (words.key_bit frame.now) (is_individual values.now.kind) }
{
    let wanted = values.kind.individual();
    match frame.ext {
        Some(ext) => ext.individual != wanted,
        None => wanted,
    }
}

// The verdict on a command that a frame of a row carries for certain.
#[tactic(auto, unfolding(gp_ideal::specs::Heard::counted))]
fn count(rules: &Rules, known: &Known, counter: u32, command: &[u8]) -> Ruling
    requires some { 0 < length command.now }
    requires room { length command.now ≤ 117 }
    ensures ruling { ruling_of result ≡ words.counted rules.now known.now counter command.now }
    ensures due { IfSome result.change (IsAbove known.now) }
    ensures agrees { (rows : List OneRow) → Agrees rows result.verdict result.change }
    ensures message { GivesMessage result.verdict }
{
    if counter <= known.floor {
        return drops(Cause::Stale { floor: known.floor });
    }
    let row = known.row;
    let source = known.values.src;
    if command[0] == 0xE1 {
        return Ruling {
            verdict: Verdict::Unpaired {
                row,
                source,
                counter,
                message: removal_sent(source),
            },
            change: Some(Change::Retire { row, counter }),
        };
    }
    Ruling {
        verdict: Verdict::Acted {
            row,
            source,
            counter,
            command: command[0],
            acts: acts(rules, source, command),
        },
        change: Some(Change::Accept { row, counter }),
    }
}

// The verdict on a secured frame, by what is known of its SrcID.
#[tactic(auto, unfolding(gp_ideal::specs::Heard::judged))]
fn judge<L: Ledger>(rules: &Rules, known: &Known, frame: &Gpdf, steps: &mut Steps<L>) -> Ruling
    requires carried { IsCarried frame.now }
    requires secured { 2 ≤ level_of frame.now }
    requires some { 0 < length frame.now.body }
    requires room { length frame.now.body ≤ 117 }
    ensures ruling { ruling_of result ≡ words.judged rules.now known.now frame.now }
    ensures due { IfSome result.change (IsAbove known.now) }
    ensures agrees { (rows : List OneRow) → Agrees rows result.verdict result.change }
    ensures message { GivesMessage result.verdict }
    ensures bound { steps.new ≤ steps.old + 17 }
{
    if is_wrong_key(frame, &known.values) {
        return drops(Cause::KeyBit);
    }
    if frame.level() != known.values.level.number() {
        return drops(Cause::LevelOther);
    }
    match unseal_frame(frame, &known.values.key, steps) {
        Ok(command) => count(rules, known, counter_in(frame), command.as_slice()),
        Err(_) => drops(Cause::BadTag),
    }
}

// The counter of a frame, 0 where it is absent.
fn counter_in(frame: &Gpdf) -> u32
    ensures { result ≡ counter_of frame.now }
{
    match frame.counter {
        Some(counter) => counter,
        None => 0,
    }
}

// The SrcID of a frame, 0 where it is absent.
fn source_in(frame: &Gpdf) -> Src
    ensures { result.0 ≡ source_of frame.now }
{
    match frame.src {
        Some(src) => src,
        None => Src(0),
    }
}

// Whether a frame goes to the device.
fn is_to_device(frame: &Gpdf) -> bool
    ensures { result ≡ protection.is_to_device frame.now }
{
    match frame.ext {
        Some(ext) => ext.to_device,
        None => false,
    }
}

// The verdict on a secured frame.
#[tactic(auto, unfolding(gp_ideal::specs::Heard::secured))]
fn rule_secured<L: Ledger>(
    table: &Table,
    rules: &Rules,
    frame: &Gpdf,
    steps: &mut Steps<L>,
) -> Ruling
    requires carried { IsCarried frame.now }
    requires secured { 2 ≤ level_of frame.now }
    requires some { 0 < length frame.now.body }
    requires room { length frame.now.body ≤ 117 }
    ensures ruling { (ledger : List LedgerChange) → Fits table.now ledger → ruling_of result ≡ words.secured rules.now ledger frame.now }
    ensures due { IfSome result.change (MayMake table.now) }
    ensures agrees { Agrees table.now result.verdict result.change }
    ensures message { GivesMessage result.verdict }
    ensures bound { steps.new ≤ steps.old + 17 }
    ensures unknown { HasNoneCurrent table.now (source_of frame.now) → steps.new ≡ steps.old }
{
    match known(table, source_in(frame)) {
        Some(known) => judge(rules, &known, frame, steps),
        None => drops(Cause::Unknown),
    }
}

// The verdict on an unsecured frame.
#[tactic(auto, unfolding(gp_ideal::specs::Heard::clear))]
fn rule_clear(body: &Octets) -> Ruling
    requires { 0 < length body.now }
    ensures ruling { ruling_of result ≡ words.clear body.now }
    ensures none { result.change ≡ None }
    ensures agrees { (rows : List OneRow) → Agrees rows result.verdict result.change }
    ensures message { GivesMessage result.verdict }
{
    if body.as_slice()[0] == 0xE0 {
        return says(Verdict::Refused(OfferReason::NotListening));
    }
    drops(Cause::Unsecured)
}

// The verdict on a frame.
#[tactic(auto, unfolding(gp_ideal::specs::Heard::of_frame))]
fn rule_frame<L: Ledger>(table: &Table, rules: &Rules, frame: &Gpdf, steps: &mut Steps<L>) -> Ruling
    requires carried { IsCarried frame.now }
    requires some { 0 < length frame.now.body }
    requires room { length frame.now.body ≤ 117 }
    ensures ruling { (ledger : List LedgerChange) → Fits table.now ledger → ruling_of result ≡ words.of_frame rules.now ledger frame.now }
    ensures due { IfSome result.change (MayMake table.now) }
    ensures agrees { Agrees table.now result.verdict result.change }
    ensures message { GivesMessage result.verdict }
    ensures bound { steps.new ≤ steps.old + 17 }
    ensures unknown { HasNoneCurrent table.now (source_of frame.now) → steps.new ≡ steps.old }
{
    if is_to_device(frame) {
        return drops(Cause::ToDevice);
    }
    if frame.level() <= 1 {
        return rule_clear(&frame.body);
    }
    rule_secured(table, rules, frame, steps)
}

/// The verdict on octets on the air. It takes no memory. Each call of the block cipher is one step: there are at most 17,
/// and none where the SrcID has no current pairing.
#[tactic(auto, using(crate::proofs::Bodies::body_fits), unfolding(gp_ideal::specs::Heard::heard))]
pub fn rule<L: Ledger>(table: &Table, rules: &Rules, octets: &[u8], steps: &mut Steps<L>) -> Ruling
    ensures ruling { (ledger : List LedgerChange) → Fits table.now ledger → ruling_of result ≡ words.heard rules.now ledger octets.now }
    ensures due { IfSome result.change (MayMake table.now) }
    ensures agrees { Agrees table.now result.verdict result.change }
    ensures message { GivesMessage result.verdict }
    ensures bound { steps.new ≤ steps.old + 17 }
    ensures unknown { IsOfUnknown table.now (reading octets.now) → steps.new ≡ steps.old }
{
    match decode(octets) {
        Ok(mpdu) => rule_frame(table, rules, &mpdu.frame, steps),
        Err(reason) => drops(Cause::Malformed(reason)),
    }
}
