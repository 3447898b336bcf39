//! The calls of a sink with power.
ghost use Rattle.std.specs.Prelude.{◌≡◌, ◌<◌, ◌≤◌, ◌+◌, ℕ, List, IfOk};
ghost use Rattle.gp_ideal.specs.declared.ledger.Change.{Change};
ghost use Rattle.gp_ideal.specs.Heard.{heard};
ghost use Rattle.gp_ideal.specs.Paired.{paired};
ghost use Rattle.gp_sink.specs.Fits.{Fits};
ghost use Rattle.gp_sink.specs.Sink.{Comes, GivesMessage};
ghost use Rattle.gp_sink.specs.Verdict.{offered};
ghost use Rattle.gp_power.specs.Few.{IsBelow};
ghost use Rattle.gp_power.specs.Inside.{in_memory, IsRuled};

use gp_base::Steps;
use gp_commission::Offer;
use gp_disk::MemoryDisk;
use gp_script::RuleAnswer;
use gp_sink::{Sink, SinkFault, Verdict};
use gp_translate::{Rule, RuleReason, Rules};
use std::marker::Brand;
use std::sync::ledger::{Blank, Ledger};

/// A sink hears octets. Blocks of the cipher aren't counted.
pub fn hear(sink: &mut Sink<MemoryDisk>, octets: &[u8]) -> Result<Verdict, SinkFault>
    ensures comes { (ledger : List Change) → Fits sink.old.store.rows ledger → Comes in_memory ledger (heard sink.old.rules ledger octets.now) sink.old sink.new result }
    ensures few { (most : ℕ) → IsBelow most sink.old.store → IsBelow (most + 2) sink.new.store }
    ensures message { IfOk result GivesMessage }
{
    hear_counted::<Brand>(sink, octets, Blank::new(1))
}

// The same, by steps of its own.
fn hear_counted<L: Ledger>(
    sink: &mut Sink<MemoryDisk>,
    octets: &[u8],
    blank: Blank,
) -> Result<Verdict, SinkFault>
    requires name { blank.name ≡ L.name }
    requires parts { blank.parts ≡ L.parts }
    requires some { 0 < L.parts }
    ensures comes { (ledger : List Change) → Fits sink.old.store.rows ledger → Comes in_memory ledger (heard sink.old.rules ledger octets.now) sink.old sink.new result }
    ensures few { (most : ℕ) → IsBelow most sink.old.store → IsBelow (most + 2) sink.new.store }
    ensures message { IfOk result GivesMessage }
{
    let mut steps = Steps::<L>::new(blank);
    sink.hear(octets, &mut steps)
}

/// A sink is to pair a device.
pub fn pair(sink: &mut Sink<MemoryDisk>, offer: &Offer) -> Result<Verdict, SinkFault>
    ensures comes { (ledger : List Change) → Fits sink.old.store.rows ledger
        → Comes in_memory ledger (paired sink.old.config ledger (offered sink.old.config offer.now) offer.now.counter) sink.old sink.new result }
    ensures few { (most : ℕ) → IsBelow most sink.old.store → IsBelow (most + 2) sink.new.store }
    ensures message { IfOk result GivesMessage }
{
    sink.pair(offer)
}

/// A rule is to be added to a sink's.
pub fn add_rule(sink: &mut Sink<MemoryDisk>, rule: Rule) -> RuleAnswer
    ensures ruled { IsRuled rule sink.old.rules sink.new.rules result }
    ensures same { sink.new ≡ record sink.old { rules = sink.new.rules } }
{
    match sink.add_rule(rule) {
        Ok(()) => RuleAnswer::Added,
        Err(RuleReason::Form) => RuleAnswer::Form,
        Err(RuleReason::Full) => RuleAnswer::Full,
        Err(RuleReason::Many) => RuleAnswer::Many,
    }
}

/// A rule is to be added to the rules of a sink without power.
pub fn add_to(rules: &mut Rules, rule: Rule) -> RuleAnswer
    ensures { IsRuled rule rules.old rules.new result }
{
    match rules.add(rule) {
        Ok(()) => RuleAnswer::Added,
        Err(RuleReason::Form) => RuleAnswer::Form,
        Err(RuleReason::Full) => RuleAnswer::Full,
        Err(RuleReason::Many) => RuleAnswer::Many,
    }
}
