//! The two sides of the outside world: where octets come from, and where they go.

ghost use Rattle.std.specs.Prelude.{◌≡◌, ℕ, ◌<◌, ◌≤◌, List, Option, length, IfOk, OnOk, OnErr};
ghost use Rattle.std.specs.Io.KnownBytes.{ReadConsumes, WriteAppends};
ghost use Rattle.gp_base.specs.Outside.{one_more};

/// A call of the outside world failed. Its count of faults has risen by one in that call.
#[derive(Clone, Copy, PartialEq, Eq, Debug)]
pub struct Failed;

/// Memory was asked for and not found.
#[derive(Clone, Copy, PartialEq, Eq, Debug)]
pub struct NoMemory;

/// Where octets come from.
pub trait Source {
    /// How many calls have failed, up to the greatest 64-bit number, at which it stays.
    ghost faults: { Self → ℕ };

    /// The octets that are left to read, where the source tells them.
    ghost left: { Self → Option (List ℕ) };

    /// Reads into the front of the buffer and gives how many octets it read. Of a buffer that isn't empty,
    /// 0 means the end. A failed read takes nothing from what is left, and leaves the buffer as it was.
    fn read(&mut self, into: &mut [u8]) -> Result<usize, Failed>
        ensures bound { IfOk result (λ count. count ≤ length into.new) }
        ensures octets { ReadConsumes (left self.old) (left self.new) result into.new }
        ensures nothing_given { OnErr result (into.new ≡ into.old) }
        ensures good { OnOk result (faults self.new ≡ faults self.old) }
        ensures failed { OnErr result (faults self.new ≡ one_more (faults self.old)) }
        ensures kept { faults self.old ≤ faults self.new };
}

/// Where octets go.
pub trait Out {
    /// How many calls have failed, up to the greatest 64-bit number, at which it stays.
    ghost faults: { Self → ℕ };

    /// The octets that were written, where the output tells them.
    ghost written: { Self → Option (List ℕ) };

    /// Writes from the front of a piece and gives how many octets it took: at least one of a piece that
    /// isn't empty. A failed write takes nothing.
    fn write(&mut self, octets: &[u8]) -> Result<usize, Failed>
        ensures bound { IfOk result (λ count. count ≤ length octets.now) }
        ensures progress { IfOk result (λ count. 0 < length octets.now → 0 < count) }
        ensures octets { WriteAppends (written self.old) (written self.new) result octets.now }
        ensures good { OnOk result (faults self.new ≡ faults self.old) }
        ensures failed { OnErr result (faults self.new ≡ one_more (faults self.old)) }
        ensures kept { faults self.old ≤ faults self.new };
}
