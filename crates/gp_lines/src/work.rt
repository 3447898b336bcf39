//! A work that takes the lines of an input one by one.

ghost use Rattle.std.specs.Prelude.{◌≡◌, ℕ, ◌+◌, ◌≤◌, List, length, OnOk, IfErr};
ghost use Rattle.gp_lines.specs.Work.{Grows, UnlessNoMemory};

use crate::status::DiskReason;
use gp_script::LineReason;

/// Why a work stops at a line.
#[derive(Clone, Copy, PartialEq, Eq, Debug)]
pub enum Halt {
    /// The line is refused.
    Bad(LineReason),
    /// A call of the disk failed.
    DiskFault,
    /// The disk is refused.
    DiskRefused(DiskReason),
    /// A change is due and the last generation is the greatest number.
    Worn {
        /// The last generation.
        generation: u64,
    },
    /// Memory was asked for and not found.
    NoMemory,
}

/// What takes the lines of an input one by one, and has a state of its own.
pub trait Work {
    ghost use Rattle.gp_lines.specs.declared.work.Halt.{Halt};

    /// What a line does: how the work stands before it, its number, the line, the text that it gives, how the work stands
    /// after it.
    ghost goes: { Self → ℕ → List ℕ → List ℕ → Self → Type 0 };

    /// What holds of the work before it takes the line with a number.
    ghost awaits: { Self → ℕ → Type 0 };

    /// Why a line stops the work: how the work stands before it, its number, the line, the cause, how the work stands after
    /// it.
    ghost stops: { Self → ℕ → List ℕ → Halt → Self → Type 0 };

    /// Takes the line with this number, from 1 to 1,000,000, without its line end, and adds the text that it gives, line ends and all.
    /// A line that stops the work gives no text.
    fn take(&mut self, number: u64, line: &[u8], text: &mut Vec<u8>) -> Result<(), Halt>
        requires awaits { awaits self.old number }
        requires some { 1 ≤ number }
        requires few { number ≤ 1000000 }
        requires narrow { length line.now ≤ 1024 }
        ensures next { OnOk result (awaits self.new (number + 1)) }
        ensures ok { OnOk result (Grows text.old.items text.new.items (λ told. goes self.old number line.now told self.new)) }
        ensures err { IfErr result (λ halt. stops self.old number line.now halt self.new × UnlessNoMemory halt (text.new.items ≡ text.old.items)) };
}
