use gp_base::{MemoryOut, MemorySource};
use gp_lines::{Halt, Status, Work, run_lines};
use gp_script::LineReason;
use std::test::Fail;

// A work with a state: the sum of the lengths of the lines so far. It says the last digit of the sum for each line, refuses
// the line `?`, and starts again from 0 and stops at the line `!`, as if a disk had failed.
#[derive(Drop)]
struct Sum {
    total: u64,
}

impl Work for Sum {
    ghost use Rattle.std.specs.Prelude.{◌≡◌, ◌+◌, ◌%◌, ◌^◌, [], ◌∷◌, length};
    ghost use Rattle.gp_lines.specs.declared.work.Halt.TheVariants as halt;

    ghost goes = { λ old number line text new.
        (new.total ≡ (old.total + length line) % (2 ^ 64)) × (text ≡ (48 + new.total % 10) ∷ []) };

    ghost awaits = { λ work number. Unit {0} };

    ghost stops = { λ old number line cause new. (cause ≡ halt.DiskFault → line ≡ 33 ∷ []) };

    fn take(&mut self, _number: u64, line: &[u8], text: &mut Vec<u8>) -> Result<(), Halt> {
        if line == b"?".as_slice() {
            return Err(Halt::Bad(LineReason::Form));
        }
        if line == b"!".as_slice() {
            self.total = 0;
            return Err(Halt::DiskFault);
        }
        let total = self.total.wrapping_add(line.len() as u64);
        if text.push(b'0' + (total % 10) as u8).is_err() {
            return Err(Halt::NoMemory);
        }
        self.total = total;
        Ok(())
    }
}

// A run: how much text may wait, how much one read gives, the calls that fail, and the input.
#[derive(Clone, Copy)]
struct Case<'a> {
    held: usize,
    piece: usize,
    failing_reads: &'a [u64],
    failing_writes: &'a [u64],
    input: &'a str,
}

// The status, the sum at the end, and what was written.
fn ran(rt: &HostRuntime, case: &Case) -> Result<(Status, u64, Vec<u8>), Fail> {
    let input = case.input.as_bytes();
    let mut source = MemorySource::of(rt.alloc(), input, case.piece.max(1), case.failing_reads)
        .ok()
        .ok_or("memory")?;
    let mut out = MemoryOut::new(rt.alloc(), 64, 64, case.failing_writes)
        .ok()
        .ok_or("memory")?;
    let mut sum = Sum { total: 0 };
    let status = run_lines(rt.alloc(), &mut sum, case.held, &mut source, &mut out);
    let written = Vec::from_slice(rt.alloc(), out.written())?;
    Ok((status, sum.total, written))
}

// Lines to the end of the input, and lines that stop the work: behind an LF and as the last.
#[test]
fn lines_and_stops(rt: HostRuntime) -> Result<(), Fail> {
    let reason = LineReason::Form;
    let cases = [
        ("ab\r\nc\n\nd", Status::Done, 4, "2334"),
        ("", Status::Done, 0, ""),
        ("ab\nc\n?\nd", Status::BadLine { line: 3, reason }, 3, "23"),
        ("ab\nc\n!\nd", Status::DiskFault, 0, "23"),
        ("ab\n!", Status::DiskFault, 0, "2"),
    ];
    for (input, status, total, written) in cases {
        for (held, piece) in [(0usize, 64usize), (64, 64), (0, 1)] {
            let case = Case {
                held,
                piece,
                failing_reads: &[],
                failing_writes: &[],
                input,
            };
            let (answer, sum, text) = ran(&rt, &case)?;
            assert_eq!(rt; answer, status, "{input}");
            assert_eq!(rt; sum, total, "{input}");
            assert_eq!(rt; text.as_slice(), written.as_bytes(), "{input}");
        }
    }
    Ok(())
}

// Where no text may wait, a write that fails comes before the next line is taken; where some may, behind the last line. A read
// that fails leaves the lines that stand complete.
#[test]
fn faults(rt: HostRuntime) -> Result<(), Fail> {
    let input = "ab\nc\nd\n";
    let at_once = Case {
        held: 0,
        piece: 64,
        failing_reads: &[],
        failing_writes: &[1],
        input,
    };
    let waiting = Case {
        held: 64,
        piece: 64,
        failing_reads: &[],
        failing_writes: &[0],
        input,
    };
    let cut_off = Case {
        held: 0,
        piece: 4,
        failing_reads: &[1],
        failing_writes: &[],
        input,
    };
    let cases = [
        (at_once, Status::WriteFault, 3, "2"),
        (waiting, Status::WriteFault, 4, ""),
        (cut_off, Status::ReadFault, 2, "2"),
    ];
    for (case, status, total, written) in cases {
        let (answer, sum, text) = ran(&rt, &case)?;
        assert_eq!(rt; answer, status, "{total}");
        assert_eq!(rt; sum, total, "{total}");
        assert_eq!(rt; text.as_slice(), written.as_bytes(), "{total}");
    }
    Ok(())
}
