//! Writing all of a text, and the status behind it.

ghost use Rattle.std.specs.Prelude.{◌≡◌, ℕ, ◌<◌, ◌≤◌, take, length, OnOk, OnErr};
ghost use Rattle.std.specs.Io.KnownBytes.{Appends};
ghost use Rattle.gp_base.specs.Outside.{one_more};
ghost use Rattle.gp_lines.specs.LastWords.{SaysOr};

use crate::status::Status;
use gp_base::{Failed, Out};

/// Writes all the octets, in as many calls as the output needs. A failure leaves a front of them written.
#[tactic(auto, using(crate::proofs::Streams::writes))]
pub fn write_all<O: Out>(out: &mut O, octets: &[u8]) -> Result<(), Failed>
    ensures ok { OnOk result (Appends (O.written out.old) (O.written out.new) octets.now) }
    ensures err { OnErr result ((count : ℕ) × Appends (O.written out.old) (O.written out.new) (take count octets.now)) }
    ensures some { OnErr result (0 < length octets.now) }
    ensures good { OnOk result (O.faults out.new ≡ O.faults out.old) }
    ensures failed { OnErr result (O.faults out.new ≡ one_more (O.faults out.old)) }
{
    let mut rest = octets;
    while !rest.is_empty() {
        let Ok(count) = out.write(rest) else {
            return Err(Failed);
        };
        let (_, after) = rest.split_at(count);
        rest = after;
    }
    Ok(())
}

/// Writes the last text of a run and answers its status, or `WriteFault` where a front of it is written.
pub fn last_words<O: Out>(out: &mut O, text: &[u8], status: Status) -> Status
    ensures { SaysOr status result (O.written out.old) (O.written out.new) text.now (O.faults out.old) (O.faults out.new) }
{
    match write_all(out, text) {
        Ok(()) => status,
        Err(_) => Status::WriteFault,
    }
}
