//! How far a work has come in an input.

ghost use Rattle.std.specs.Prelude.{◌≡◌, ℕ, ◌+◌, ◌<◌, ◌≤◌, ◌↔◌, [], ◌∷◌, ◌++◌, List, Option, length, take, IsTrue, IfErr, OnOk, OnErr, if◌then◌else◌};
ghost use Rattle.std.specs.Io.KnownBytes.{Appends};
ghost use Rattle.std.specs.Str.Lines.{lines, strip_carriage_return};
ghost use Rattle.gp_base.specs.Outside.{one_more};
ghost use Rattle.gp_lines.specs.Lines.{HasNoEnd, MayGoOn, IsWithin};
ghost use Rattle.gp_lines.specs.Cutting.{GoesBeyond, room};
ghost use Rattle.gp_lines.specs.Work.{Grows, Chain};
ghost use Rattle.gp_lines.specs.Progress.{Advances, TakesLast, Cause, Stops, LineStops, OutCounts, place};

use crate::lines::{LINE_LIMIT, WIDTH_LIMIT, is_too_wide, split_line, without_return};
use crate::stop::Stop;
use crate::work::Work;
use crate::writing::write_all;
use arrayvec::ArrayVec;
use gp_base::{Failed, Out};

/// What has come so far of an input.
#[derive(Drop)]
pub struct Progress {
    /// How many lines are complete.
    pub lines: u64,
    /// The octets of the line that has begun: one more than a line may have, which is a CR.
    pub begun: ArrayVec<u8, 1025>,
    /// What the complete lines gave and isn't written yet.
    pub text: Vec<u8>,
}

// Lets the work take a line, the line end aside, behind so many lines before it.
fn take_line<W: Work>(work: &mut W, text: &mut Vec<u8>, lines: u64, line: &[u8]) -> Result<(), Stop>
    requires awaits { W.awaits work.old (lines + 1) }
    ensures next { OnOk result (W.awaits work.new (lines + 1 + 1)) }
    ensures ok { OnOk result (Grows text.old.items text.new.items (λ told. W.goes work.old (lines + 1) line.now told work.new)) }
    ensures within { OnOk result (IsWithin lines line.now) }
    ensures err { IfErr result (λ stop. LineStops W.stops stop lines line.now text.old.items text.new.items work.old work.new) }
{
    if lines >= LINE_LIMIT || line.len() > WIDTH_LIMIT {
        return Err(Stop::TooLong);
    }
    match work.take(lines + 1, line, text) {
        Ok(()) => Ok(()),
        Err(halt) => Err(Stop::Halted(lines + 1, halt)),
    }
}

impl Progress {
    /// No line yet, and room for text.
    pub fn start(text: Vec<u8>) -> Progress
        requires { text.items ≡ [] }
        ensures lines { result.lines ≡ 0 }
        ensures begun { result.begun.items ≡ [] }
        ensures text { result.text.items ≡ [] }
    {
        Progress {
            lines: 0,
            begun: ArrayVec::new(),
            text,
        }
    }

    // Adds octets to the line that has begun. It is false exactly where there is no room, and then changes nothing.
    fn widen(&mut self, octets: &[u8]) -> bool
        ensures variant { IsTrue result ↔ (length self.old.begun.items + length octets.now ≤ 1025) }
        ensures begun { self.new.begun.items ≡ (if result then self.old.begun.items ++ octets.now else self.old.begun.items) }
        ensures lines { self.new.lines ≡ self.old.lines }
        ensures text { self.new.text ≡ self.old.text }
    {
        self.begun.try_extend_from_slice(octets).is_ok()
    }

    // Ends the line that has begun with these octets, which stand before an LF.
    fn end_line<W: Work>(&mut self, work: &mut W, front: &[u8]) -> Result<(), Stop>
        requires awaits { W.awaits work.old (self.old.lines + 1) }
        ensures ok { OnOk result (Grows self.old.text.items self.new.text.items (λ told. W.goes work.old (self.old.lines + 1) (strip_carriage_return (self.old.begun.items ++ front.now)) told work.new)) }
        ensures within { OnOk result (IsWithin self.old.lines (strip_carriage_return (self.old.begun.items ++ front.now))) }
        ensures next { OnOk result (W.awaits work.new (self.new.lines + 1)) }
        ensures one { OnOk result (self.new.lines ≡ self.old.lines + 1) }
        ensures begun { OnOk result (self.new.begun.items ≡ []) }
        ensures err { IfErr result (λ stop. LineStops W.stops stop self.old.lines (strip_carriage_return (self.old.begun.items ++ front.now))
            self.old.text.items self.new.text.items work.old work.new) }
    {
        if self.begun.is_empty() {
            self.end_fresh(work, front)
        } else {
            self.end_begun(work, front)
        }
    }

    // The same where no line has begun: the octets are the line.
    fn end_fresh<W: Work>(&mut self, work: &mut W, front: &[u8]) -> Result<(), Stop>
        requires awaits { W.awaits work.old (self.old.lines + 1) }
        requires begun { self.old.begun.items ≡ [] }
        ensures ok { OnOk result (Grows self.old.text.items self.new.text.items (λ told. W.goes work.old (self.old.lines + 1) (strip_carriage_return front.now) told work.new)) }
        ensures within { OnOk result (IsWithin self.old.lines (strip_carriage_return front.now)) }
        ensures next { OnOk result (W.awaits work.new (self.new.lines + 1)) }
        ensures one { OnOk result (self.new.lines ≡ self.old.lines + 1) }
        ensures begun { OnOk result (self.new.begun.items ≡ []) }
        ensures err { IfErr result (λ stop. LineStops W.stops stop self.old.lines (strip_carriage_return front.now)
            self.old.text.items self.new.text.items work.old work.new) }
    {
        match take_line(work, &mut self.text, self.lines, without_return(front)) {
            Ok(()) => {
                self.lines += 1;
                Ok(())
            }
            Err(stop) => Err(stop),
        }
    }

    // The same where a line has begun.
    fn end_begun<W: Work>(&mut self, work: &mut W, front: &[u8]) -> Result<(), Stop>
        requires awaits { W.awaits work.old (self.old.lines + 1) }
        ensures ok { OnOk result (Grows self.old.text.items self.new.text.items (λ told. W.goes work.old (self.old.lines + 1) (strip_carriage_return (self.old.begun.items ++ front.now)) told work.new)) }
        ensures within { OnOk result (IsWithin self.old.lines (strip_carriage_return (self.old.begun.items ++ front.now))) }
        ensures next { OnOk result (W.awaits work.new (self.new.lines + 1)) }
        ensures one { OnOk result (self.new.lines ≡ self.old.lines + 1) }
        ensures begun { OnOk result (self.new.begun.items ≡ []) }
        ensures err { IfErr result (λ stop. LineStops W.stops stop self.old.lines (strip_carriage_return (self.old.begun.items ++ front.now))
            self.old.text.items self.new.text.items work.old work.new) }
    {
        if !self.widen(front) {
            return Err(Stop::TooLong);
        }
        let line = without_return(self.begun.as_slice());
        match take_line(work, &mut self.text, self.lines, line) {
            Ok(()) => {
                self.begun.clear();
                self.lines += 1;
                Ok(())
            }
            Err(stop) => Err(stop),
        }
    }

    // Begins a line with these octets, or goes on with it.
    fn begin_line(&mut self, more: &[u8]) -> Result<(), Stop>
        requires begun { HasNoEnd self.old.begun.items }
        requires more { HasNoEnd more.now }
        requires goes_on { MayGoOn self.old.lines self.old.begun.items }
        ensures begun { OnOk result (self.new.begun.items ≡ self.old.begun.items ++ more.now) }
        ensures fits { OnOk result (0 < length more.now → length self.new.begun.items ≤ 1025) }
        ensures goes_on { OnOk result (MayGoOn self.new.lines self.new.begun.items) }
        ensures lines { self.new.lines ≡ self.old.lines }
        ensures text { self.new.text.items ≡ self.old.text.items }
        ensures err { IfErr result (λ stop. (stop ≡ Stop.TooLong) × GoesBeyond self.old.lines self.old.begun.items more.now) }
    {
        if more.is_empty() {
            return Ok(());
        }
        if self.lines >= LINE_LIMIT {
            return Err(Stop::TooLong);
        }
        if !self.widen(more) {
            return Err(Stop::TooLong);
        }
        if is_too_wide(self.begun.as_slice()) {
            return Err(Stop::TooLong);
        }
        Ok(())
    }

    // Ends the line that has begun with these octets, which stand before an LF, and writes the text where more waits than may.
    fn pass_line<W: Work, O: Out>(
        &mut self,
        work: &mut W,
        out: &mut O,
        held: usize,
        front: &[u8],
    ) -> Result<(), Stop>
        requires awaits { W.awaits work.old (self.old.lines + 1) }
        requires begun { HasNoEnd self.old.begun.items }
        requires front { HasNoEnd front.now }
        ensures ok { OnOk result (Advances W.goes (place self.old.lines self.old.begun.items self.old.text.items (O.written out.old) work.old) (front.now ++ 10 ∷ [])
            (place self.new.lines self.new.begun.items self.new.text.items (O.written out.new) work.new)) }
        ensures next { OnOk result (W.awaits work.new (self.new.lines + 1)) }
        ensures one { OnOk result (self.new.lines ≡ self.old.lines + 1) }
        ensures few { OnOk result (self.new.lines ≤ 1000000) }
        ensures begun { OnOk result (self.new.begun.items ≡ []) }
        ensures little { OnOk result (length self.new.text.items ≤ held) }
        ensures err { IfErr result (λ stop. Cause W.goes W.stops stop (place self.old.lines self.old.begun.items self.old.text.items (O.written out.old) work.old) (front.now ++ 10 ∷ [])
            (place self.new.lines self.new.begun.items self.new.text.items (O.written out.new) work.new)) }
        ensures good { OnOk result (O.faults out.new ≡ O.faults out.old) }
        ensures counts { IfErr result (λ stop. OutCounts stop (O.faults out.old) (O.faults out.new)) }
    {
        match self.end_line(work, front) {
            Ok(()) => {}
            Err(stop) => return Err(stop),
        }
        if self.text.len() <= held {
            return Ok(());
        }
        match self.flush(out) {
            Ok(()) => Ok(()),
            Err(_) => Err(Stop::WriteFault),
        }
    }

    /// Takes the next piece of the input: lets the work take the lines that it ends, and begins another. Between two lines
    /// no more text waits than is held.
    pub fn take_piece<W: Work, O: Out>(
        &mut self,
        work: &mut W,
        out: &mut O,
        held: usize,
        piece: &[u8],
    ) -> Result<(), Stop>
        requires awaits { W.awaits work.old (self.old.lines + 1) }
        requires begun { HasNoEnd self.old.begun.items }
        requires few { self.old.lines ≤ 1000000 }
        requires goes_on { MayGoOn self.old.lines self.old.begun.items }
        requires little { length self.old.text.items ≤ held }
        ensures ok { OnOk result (Advances W.goes (place self.old.lines self.old.begun.items self.old.text.items (O.written out.old) work.old) piece.now
            (place self.new.lines self.new.begun.items self.new.text.items (O.written out.new) work.new)) }
        ensures next { OnOk result (W.awaits work.new (self.new.lines + 1)) }
        ensures begun { OnOk result (HasNoEnd self.new.begun.items) }
        ensures few { OnOk result (self.new.lines ≤ 1000000) }
        ensures goes_on { OnOk result (MayGoOn self.new.lines self.new.begun.items) }
        ensures little { OnOk result (length self.new.text.items ≤ held) }
        ensures nearer { OnOk result (0 < length piece.now → room self.new.lines self.new.begun.items < room self.old.lines self.old.begun.items) }
        ensures err { IfErr result (λ stop. Stops W.goes W.stops held stop (place self.old.lines self.old.begun.items self.old.text.items (O.written out.old) work.old) piece.now
            (place self.new.lines self.new.begun.items self.new.text.items (O.written out.new) work.new)) }
        ensures good { OnOk result (O.faults out.new ≡ O.faults out.old) }
        ensures counts { IfErr result (λ stop. OutCounts stop (O.faults out.old) (O.faults out.new)) }
    {
        let mut rest = piece;
        'lines: while let Some((front, back)) = split_line(rest) {
            match self.pass_line(work, out, held, front) {
                Ok(()) => {}
                Err(stop) => return Err(stop),
            }
            rest = back;
        }
        match self.begin_line(rest) {
            Ok(()) => Ok(()),
            Err(stop) => Err(stop),
        }
    }

    /// Ends the input: a last line without LF counts where it isn't empty.
    pub fn finish<W: Work>(&mut self, work: &mut W) -> Result<(), Stop>
        requires awaits { W.awaits work.old (self.old.lines + 1) }
        requires begun { HasNoEnd self.old.begun.items }
        ensures ok { OnOk result (Grows self.old.text.items self.new.text.items (TakesLast W.goes self.old.lines (lines self.old.begun.items) work.old work.new)) }
        ensures err { IfErr result (λ stop. (lines self.old.begun.items ≡ self.old.begun.items ∷ []) ×
            LineStops W.stops stop self.old.lines self.old.begun.items self.old.text.items self.new.text.items work.old work.new) }
    {
        if self.begun.is_empty() {
            return Ok(());
        }
        match take_line(work, &mut self.text, self.lines, self.begun.as_slice()) {
            Ok(()) => Ok(()),
            Err(stop) => Err(stop),
        }
    }

    /// Writes the text of the lines so far.
    pub fn flush<O: Out>(&mut self, out: &mut O) -> Result<(), Failed>
        ensures ok { OnOk result (Appends (O.written out.old) (O.written out.new) self.old.text.items) }
        ensures text { OnOk result (self.new.text.items ≡ []) }
        ensures lines { self.new.lines ≡ self.old.lines }
        ensures begun { self.new.begun ≡ self.old.begun }
        ensures err { OnErr result ((count : ℕ) × Appends (O.written out.old) (O.written out.new) (take count self.old.text.items)) }
        ensures some { OnErr result (0 < length self.old.text.items) }
        ensures good { OnOk result (O.faults out.new ≡ O.faults out.old) }
        ensures failed { OnErr result (O.faults out.new ≡ one_more (O.faults out.old)) }
    {
        let Ok(()) = write_all(out, self.text.as_slice()) else {
            return Err(Failed);
        };
        self.text.clear();
        Ok(())
    }
}
