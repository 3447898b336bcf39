//! One sink over a disk.
ghost use Rattle.std.specs.Prelude.{◌≡◌, ◌↔◌, ◌+◌, ◌++◌, ◌≤◌, false, true, List, [], ◌∷◌, IfOk, IfErr, IfSome, OnOk, OnErr, IsTrue, Some, None};
ghost use Rattle.gp_frames.specs.Reading.{reading};
ghost use Rattle.gp_rows.specs.Rows.{IsTable, AreWithin};
ghost use Rattle.gp_store.specs.Commit.{Stands};
ghost use Rattle.gp_store.specs.Recovery.{Recovered, RefusedToRecover};
ghost use Rattle.gp_translate.specs.Rules.{standard, refusal};
ghost use Rattle.gp_ideal.specs.declared.ledger.Change.{Change as LedgerChange};
ghost use Rattle.gp_ideal.specs.Heard.{heard};
ghost use Rattle.gp_ideal.specs.Paired.{paired};
ghost use Rattle.gp_sink.specs.Announced.{announced, IsInGroup};
ghost use Rattle.gp_sink.specs.Fits.{Fits};
ghost use Rattle.gp_sink.specs.Ruled.{MayMake, IsOfUnknown};
ghost use Rattle.gp_sink.specs.Inside.{Agrees};
ghost use Rattle.gp_sink.specs.Verdict.{verdict_of, offered};
ghost use Rattle.gp_sink.specs.Sink.{Answers, Comes, HasCause, Goes, IsKept, GivesMessage, IsMessage};

use crate::announcing::{announced as tell, is_in_group};
use crate::committing::commit;
use crate::pairing::rule_offer;
use crate::ruling::{Ruling, rule};
use crate::verdict::{SinkFault, Verdict};
use gp_base::{Src, Steps};
use gp_cluster::Sent;
use gp_commission::Offer;
use gp_disk::{Disk, MemoryDisk};
use gp_ideal::Config;
use gp_rows::{Row, Table};
use gp_store::{CommitFault, Refused, Store};
use gp_translate::{Rule, RuleReason, Rules};
use std::alloc::Global;
use std::marker::Model;
use std::sync::ledger::Ledger;

/// A sink over a disk: what it remembers survives a power cut.
#[derive(Drop)]
pub struct Sink<D: Disk> {
    config: Config,
    rules: Rules,
    store: Store<D>,
}

impl<D: Disk> Model for Sink<D> {
    ghost use Rattle.gp_sink.specs.Sink.{SinkState};

    ghost Value = { SinkState D };

    ghost view = { λ s. record { config = s.config; rules = s.rules; store = s.store } };

    ghost inverse = { λ v. record { config = v.config; rules = v.rules; store = v.store } };
}

impl<D: Disk> Sink<D> {
    /// Starts a sink over the rows of a disk, with the standard rules.
    ///
    /// A refusal is the store's, and hands the disk back: NoMemory, DiskShort, DiskFault where the disk has failed,
    /// NotFormatted, SlotForm with the smallest ill slot.
    pub fn start(alloc: Global, config: Config, disk: D) -> Result<Sink<D>, Refused<D>>
        ensures recovered { IfOk result (λ sink. Recovered D.Disk disk sink.store) }
        ensures set_up { IfOk result (λ sink. (sink.config ≡ config) × (sink.rules ≡ standard)) }
        ensures refused { IfErr result (λ refused. RefusedToRecover D.Disk disk refused) }
    {
        Sink::start_with(alloc, config, Rules::standard(), disk)
    }

    /// Starts a sink over the rows of a disk, with these rules. The refusals are those of `start`.
    pub fn start_with(
        alloc: Global,
        config: Config,
        rules: Rules,
        disk: D,
    ) -> Result<Sink<D>, Refused<D>>
        ensures recovered { IfOk result (λ sink. Recovered D.Disk disk sink.store) }
        ensures set_up { IfOk result (λ sink. (sink.config ≡ config) × (sink.rules ≡ rules)) }
        ensures refused { IfErr result (λ refused. RefusedToRecover D.Disk disk refused) }
    {
        match Store::recover(alloc, disk) {
            Ok(store) => Ok(Sink {
                config,
                rules,
                store,
            }),
            Err(refused) => Err(refused),
        }
    }

    // Remembers the change of a verdict, where it has one, and then gives the verdict.
    fn settle(&mut self, ruling: Ruling) -> Result<Verdict, SinkFault>
        requires due { IfSome ruling.change (MayMake self.old.store.rows) }
        requires running { self.old.store.halted ≡ false }
        requires orders { AreWithin self.old.store.last self.old.store.rows }
        requires agrees { Agrees self.old.store.rows ruling.verdict ruling.change }
        requires stands { Stands (D.may_leave self.old.store.disk) self.old.store.rows self.old.store.last }
        ensures answers { (ledger : List LedgerChange) → Fits self.old.store.rows ledger
            → Answers D.Disk ledger (verdict_of ruling.verdict) ruling.change self.old self.new result }
        ensures cause { HasCause D.Disk self.old self.new result }
        ensures goes { Goes D.Disk self.old self.new result }
        ensures verdict { IfOk result (λ verdict. verdict ≡ ruling.verdict) }
        ensures kept { IfOk result (IsKept D.Disk self.new) }
    {
        let Ruling { verdict, change } = ruling;
        let Some(change) = change else {
            return Ok(verdict);
        };
        match commit(&mut self.store, change) {
            Ok(()) => Ok(verdict),
            Err(CommitFault::Worn { generation }) => Err(SinkFault::Worn { generation }),
            Err(CommitFault::DiskFault) => Err(SinkFault::DiskFault),
            Err(CommitFault::Halted) => unreachable!(),
            Err(CommitFault::TableFull) => unreachable!(),
        }
    }

    /// Hears octets on the air (Zigbee PRO Green Power, A.3.5.2.4 and A.3.6.1.2). It takes no memory. Each call of the
    /// block cipher is one step: there are at most 17, and none where the SrcID has no current pairing.
    ///
    /// A verdict that changes what is remembered is given once the change is on the disk. The faults are tested in this
    /// order: Halted after an earlier Worn or DiskFault; Worn where a change is due and the last generation is the
    /// greatest there is; DiskFault where the disk has failed.
    pub fn hear<L: Ledger>(
        &mut self,
        octets: &[u8],
        steps: &mut Steps<L>,
    ) -> Result<Verdict, SinkFault>
        ensures comes { (ledger : List LedgerChange) → Fits self.old.store.rows ledger
            → Comes D.Disk ledger (heard self.old.rules ledger octets.now) self.old self.new result }
        ensures cause { HasCause D.Disk self.old self.new result }
        ensures goes { Goes D.Disk self.old self.new result }
        ensures message { IfOk result GivesMessage }
        ensures kept { IfOk result (IsKept D.Disk self.new) }
        ensures bound { steps.new ≤ steps.old + 17 }
        ensures unknown { IsOfUnknown self.old.store.rows (reading octets.now) → steps.new ≡ steps.old }
    {
        if self.store.is_halted() {
            return Err(SinkFault::Halted);
        }
        let ruling = rule(self.store.rows(), &self.rules, octets, steps);
        self.settle(ruling)
    }

    /// Pairs a device with what it offers, the sink's mode and the group of that mode (Zigbee PRO Green Power,
    /// A.3.3.2.2). The row keeps the greater floor. `Refused` is BadSource for a SrcID that can't be paired, then
    /// CounterEnd for the greatest counter; behind both `Full` comes exactly where a new pair of SrcID and key meets 1,024
    /// rows. The faults are those of `hear`.
    pub fn pair(&mut self, offer: &Offer) -> Result<Verdict, SinkFault>
        ensures comes { (ledger : List LedgerChange) → Fits self.old.store.rows ledger
            → Comes D.Disk ledger (paired self.old.config ledger (offered self.old.config offer.now) offer.now.counter) self.old self.new result }
        ensures cause { HasCause D.Disk self.old self.new result }
        ensures goes { Goes D.Disk self.old self.new result }
        ensures message { IfOk result GivesMessage }
        ensures kept { IfOk result (IsKept D.Disk self.new) }
    {
        if self.store.is_halted() {
            return Err(SinkFault::Halted);
        }
        let ruling = rule_offer(self.store.rows(), &self.config, offer);
        self.settle(ruling)
    }

    /// How it is set up.
    pub fn config(&self) -> &Config
        ensures { result.now ≡ self.now.config }
    {
        &self.config
    }

    /// The rows. While the sink isn't halted, every image that a crash now may leave holds exactly these.
    pub fn rows(&self) -> &Table
        ensures rows { result.now ≡ self.now.store.rows }
        ensures table { IsTable self.now.store.rows }
        ensures orders { AreWithin self.now.store.last self.now.store.rows }
        ensures stands { self.now.store.halted ≡ false → Stands (D.may_leave self.now.store.disk) self.now.store.rows self.now.store.last }
    {
        self.store.rows()
    }

    /// The last generation of the store.
    pub fn generation(&self) -> u64
        ensures { result ≡ self.now.store.last }
    {
        self.store.generation()
    }

    /// Whether an earlier call answered `Worn` or `DiskFault`.
    pub fn is_halted(&self) -> bool
        ensures { result ≡ self.now.store.halted }
    {
        self.store.is_halted()
    }

    /// The number of the row whose commit answered `DiskFault`, and the values that its change gives it.
    pub fn undecided(&self) -> Option<(u16, Row)>
        ensures { result ≡ self.now.store.undecided }
    {
        self.store.undecided()
    }

    /// The message that tells proxies again of the current pairing of a SrcID; none exactly where there is no live one. It
    /// answers `Halted` exactly after an earlier `Worn` or `DiskFault`.
    pub fn announce(&self, source: Src) -> Result<Option<Sent>, SinkFault>
        ensures announced { (ledger : List LedgerChange) → Fits self.now.store.rows ledger → IfOk result (λ sent. sent ≡ announced self.now.config ledger source.0) }
        ensures message { IfOk result (λ sent. IfSome sent IsMessage) }
        ensures running { OnOk result (self.now.store.halted ≡ false) }
        ensures fault { IfErr result (λ fault. (fault ≡ SinkFault.Halted) × (self.now.store.halted ≡ true)) }
    {
        if self.store.is_halted() {
            return Err(SinkFault::Halted);
        }
        Ok(tell(self.store.rows(), &self.config, source))
    }

    /// Adds a rule at the end. A refusal changes nothing, and is the first that applies: Form, Full, Many.
    pub fn add_rule(&mut self, rule: Rule) -> Result<(), RuleReason>
        ensures refused { IfErr result (λ reason. refusal self.old.rules rule ≡ Some reason) }
        ensures same { OnErr result (self.new ≡ self.old) }
        ensures fine { OnOk result (refusal self.old.rules rule ≡ None) }
        ensures added { OnOk result (self.new ≡ record self.old { rules = self.old.rules ++ rule ∷ [] }) }
    {
        self.rules.add(rule)
    }

    /// Whether the frames of a live current pairing are groupcast to this group.
    pub fn in_group(&self, group: u16) -> bool
        ensures { IsTrue result ↔ IsInGroup self.now.store.rows group }
    {
        is_in_group(self.store.rows(), group)
    }

    /// The disk.
    pub fn into_disk(self) -> D
        ensures { result ≡ self.store.disk }
    {
        let Sink {
            config: _,
            rules: _,
            store,
        } = self;
        store.into_disk()
    }

    /// How it is set up, its rules and its disk.
    pub fn into_parts(self) -> (Config, Rules, D)
        ensures config { result.0 ≡ self.config }
        ensures rules { result.1 ≡ self.rules }
        ensures disk { result.2 ≡ self.store.disk }
    {
        let Sink {
            config,
            rules,
            store,
        } = self;
        (config, rules, store.into_disk())
    }
}

impl Sink<MemoryDisk> {
    ghost use Rattle.gp_disk.specs.Memory.{memory_fuse, SameButFuse};
    ghost use Rattle.gp_disk.specs.Fuse.{Waits, Stop, Fault, rearmed, is_due, has_stopped};
    ghost use Rattle.gp_store.specs.State.{SameButDisk};

    /// Arms a stop of the disk, which is due from the `begin` of this number on and falls once so many device calls have
    /// gone through.
    pub fn arm_cut(&mut self, begins: u64, calls: u64)
        requires { 1 ≤ begins }
        ensures fuse { memory_fuse self.new.store.disk ≡ rearmed (Waits begins calls Stop) (memory_fuse self.old.store.disk) }
        ensures disk { SameButFuse self.old.store.disk self.new.store.disk }
        ensures store { SameButDisk self.old.store self.new.store }
        ensures same { self.new ≡ record self.old { store = self.new.store } }
    {
        self.store.arm_cut(begins, calls);
    }

    /// Arms a fault of the disk, which falls as a stop does, and fails that call alone.
    pub fn arm_fault(&mut self, begins: u64, calls: u64)
        requires { 1 ≤ begins }
        ensures fuse { memory_fuse self.new.store.disk ≡ rearmed (Waits begins calls Fault) (memory_fuse self.old.store.disk) }
        ensures disk { SameButFuse self.old.store.disk self.new.store.disk }
        ensures store { SameButDisk self.old.store self.new.store }
        ensures same { self.new ≡ record self.old { store = self.new.store } }
    {
        self.store.arm_fault(begins, calls);
    }

    /// Tells that an arming is due.
    pub fn due(&self) -> bool
        ensures { result ≡ is_due (memory_fuse self.now.store.disk) }
    {
        self.store.due()
    }

    /// Tells that a stop has come.
    pub fn stopped(&self) -> bool
        ensures { result ≡ has_stopped (memory_fuse self.now.store.disk) }
    {
        self.store.stopped()
    }
}
