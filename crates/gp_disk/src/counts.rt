//! The counts of a disk's calls.

ghost use Rattle.std.specs.Prelude.{◌≡◌, ◌+◌, ◌<◌, ◌≤◌, true, false};
ghost use Rattle.gp_base.specs.Outside.{one_more};

/// How often each call was made, and what is pending.
#[derive(Clone, Copy, PartialEq, Eq, Debug)]
pub struct Counts {
    /// The `begin` calls, up to the greatest 64-bit number.
    pub begins: u64,
    /// The device calls between the last two `begin`s.
    pub before: u64,
    /// The device calls since the last `begin`, up to the greatest 64-bit number.
    pub calls: u64,
    /// Those that were no `read`.
    pub writes: u64,
    /// The octets of the `write_at` calls.
    pub octets: u64,
    /// Something is written that no good `sync` has followed.
    pub pending: bool,
    /// Something was pending at the last `begin`, and no `sync` has succeeded since.
    pub unsettled: bool,
}

impl Counts {
    /// No call so far.
    pub fn none() -> Counts
        ensures { result ≡ record { begins = 0; before = 0; calls = 0; writes = 0; octets = 0; pending = false; unsettled = false } }
    {
        Counts {
            begins: 0,
            before: 0,
            calls: 0,
            writes: 0,
            octets: 0,
            pending: false,
            unsettled: false,
        }
    }

    /// After a crash nothing is pending.
    pub fn crash(&mut self)
        ensures { self.new ≡ record self.old { pending = false; unsettled = false } }
    {
        self.pending = false;
        self.unsettled = false;
    }

    pub fn begin(&mut self)
        ensures { self.new ≡ record self.old { begins = one_more self.old.begins; before = self.old.calls; calls = 0; writes = 0; octets = 0; unsettled = self.old.pending } }
    {
        self.begins = self.begins.saturating_add(1);
        self.before = self.calls;
        self.calls = 0;
        self.writes = 0;
        self.octets = 0;
        self.unsettled = self.pending;
    }

    pub fn read(&mut self)
        ensures { self.new ≡ record self.old { calls = one_more self.old.calls } }
    {
        self.calls = self.calls.saturating_add(1);
    }

    pub fn write(&mut self, count: u64)
        requires calls { self.old.writes < 16 }
        requires octets { self.old.octets + count ≤ 262400 }
        ensures { self.new ≡ record self.old { calls = one_more self.old.calls; writes = self.old.writes + 1; octets = self.old.octets + count; pending = true } }
    {
        self.calls = self.calls.saturating_add(1);
        self.writes += 1;
        self.octets += count;
        self.pending = true;
    }

    pub fn sync(&mut self)
        requires { self.old.writes < 16 }
        ensures { self.new ≡ record self.old { calls = one_more self.old.calls; writes = self.old.writes + 1; pending = false; unsettled = false } }
    {
        self.calls = self.calls.saturating_add(1);
        self.writes += 1;
        self.pending = false;
        self.unsettled = false;
    }

    pub fn failed_sync(&mut self)
        requires { self.old.writes < 16 }
        ensures { self.new ≡ record self.old { calls = one_more self.old.calls; writes = self.old.writes + 1 } }
    {
        self.calls = self.calls.saturating_add(1);
        self.writes += 1;
    }
}
