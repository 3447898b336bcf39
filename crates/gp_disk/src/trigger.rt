//! What makes the calls of a disk in memory fail.

ghost use Rattle.std.specs.Prelude.{◌≡◌, ◌≤◌, false, if◌then◌else◌};
ghost use Rattle.gp_base.specs.Outside.{one_more};
ghost use Rattle.gp_disk.specs.Fuse.{Waits, Unarmed, Spent, fuse_from, begun, lit, blown, goes, burnt, crashed, rearmed, deferred, is_due, Running};
ghost use Rattle.gp_disk.specs.Trigger.{fuse_of, arming_of, ending_of};

use crate::arming::{Arming, Ending};

/// An arming, whether a stop has come, and how many calls have failed.
#[derive(Clone, Copy, PartialEq, Eq, Debug)]
pub struct Trigger {
    pub arming: Arming,
    pub stopped: bool,
    pub faults: u64,
}

impl Trigger {
    /// Nothing is armed, and nothing has failed.
    pub fn unarmed() -> Trigger
        ensures fuse { fuse_of result ≡ Running Unarmed }
        ensures faults { result.faults ≡ 0 }
    {
        Trigger {
            arming: Arming::Unarmed,
            stopped: false,
            faults: 0,
        }
    }

    /// Takes a `begin`.
    pub fn begin(&mut self)
        ensures fuse { fuse_of self.new ≡ lit (fuse_of self.old) }
        ensures faults { self.new.faults ≡ self.old.faults }
    {
        self.arming = match self.arming {
            Arming::Waits {
                begins,
                calls,
                ending,
            } => waiting(begins, calls, ending),
            _ => Arming::Unarmed,
        };
    }

    /// Takes a device call, and tells whether it goes through.
    pub fn call(&mut self) -> bool
        ensures goes { result ≡ goes 1 (fuse_of self.old) }
        ensures fuse { fuse_of self.new ≡ burnt 1 (fuse_of self.old) }
        ensures kept { self.old.faults ≤ self.new.faults }
        ensures faults { self.new.faults ≡ (if result then self.old.faults else one_more self.old.faults) }
    {
        if self.stopped {
            return self.fail();
        }
        let Arming::Due { calls, ending } = self.arming else {
            return true;
        };
        if calls == 0 {
            self.arming = Arming::Spent;
            self.stopped = is_stop(ending);
            return self.fail();
        }
        self.arming = Arming::Due {
            calls: calls - 1,
            ending,
        };
        true
    }

    /// Counts a call that fails, and tells that it doesn't go through.
    fn fail(&mut self) -> bool
        ensures result { result ≡ false }
        ensures fuse { fuse_of self.new ≡ fuse_of self.old }
        ensures kept { self.old.faults ≤ self.new.faults }
        ensures faults { self.new.faults ≡ one_more self.old.faults }
    {
        self.faults = self.faults.saturating_add(1);
        false
    }

    /// Takes a crash.
    pub fn crash(&mut self)
        ensures fuse { fuse_of self.new ≡ crashed (fuse_of self.old) }
        ensures faults { self.new.faults ≡ self.old.faults }
    {
        self.stopped = false;
        if self.is_due() {
            self.arming = Arming::Unarmed;
        }
    }

    /// Arms a stop or a fault in place of what is armed.
    pub fn arm(&mut self, begins: u64, calls: u64, ending: Ending)
        ensures fuse { fuse_of self.new ≡ rearmed (Waits begins calls (ending_of ending)) (fuse_of self.old) }
        ensures faults { self.new.faults ≡ self.old.faults }
    {
        self.arming = Arming::Waits {
            begins,
            calls,
            ending,
        };
    }

    /// Makes an arming that isn't due wait for one `begin` more.
    pub fn defer(&mut self)
        ensures fuse { fuse_of self.new ≡ deferred (fuse_of self.old) }
        ensures faults { self.new.faults ≡ self.old.faults }
    {
        if let Arming::Waits {
            begins,
            calls,
            ending,
        } = self.arming
        {
            let begins = begins.saturating_add(1);
            self.arming = Arming::Waits {
                begins,
                calls,
                ending,
            };
        }
    }

    /// Tells that an arming is due.
    pub fn is_due(&self) -> bool
        ensures { result ≡ is_due (fuse_of self.now) }
    {
        matches!(self.arming, Arming::Due { .. } | Arming::Spent)
    }
}

/// A waiting arming after a `begin`.
fn waiting(begins: u64, calls: u64, ending: Ending) -> Arming
    ensures { arming_of result ≡ begun (Waits begins calls (ending_of ending)) }
{
    if begins <= 1 {
        return Arming::Due { calls, ending };
    }
    Arming::Waits {
        begins: begins - 1,
        calls,
        ending,
    }
}

fn is_stop(ending: Ending) -> bool
    ensures { fuse_from result Spent ≡ blown (ending_of ending) }
{
    match ending {
        Ending::Stop => true,
        Ending::Fault => false,
    }
}
