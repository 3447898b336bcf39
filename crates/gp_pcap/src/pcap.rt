//! The reader.

ghost use Rattle.std.specs.Prelude.{◌≡◌, ◌<◌, ◌≤◌, ◌+◌, ◌↔◌, ℕ, List, [], ◌∷◌, ◌++◌, length, IsTrue, take};
ghost use Rattle.gp_pcap.specs.declared.packet.Packet.{Packet};
ghost use Rattle.gp_pcap.specs.Capture.{four_of};
ghost use Rattle.gp_pcap.specs.Reading.{Stands, Feeds, Ends, IsOnly};
ghost use Rattle.gp_pcap.specs.Judging.{Moves, IsTold};

use crate::numbers::{HeadStep, HeaderStep, four, judge_head, judge_header};
use crate::packet::{Packet, PcapReason};
use arrayvec::ArrayVec;
use gp_base::Octets;
use std::marker::Model;

// The part of the file that is read.
#[derive(Clone, Copy)]
enum Phase {
    Header,
    Head,
    Body,
    Refused(u64, PcapReason),
}

/// A reader of a capture file, which is fed octet by octet. It takes no memory.
#[derive(Drop)]
pub struct Pcap {
    fed: u64,
    phase: Phase,
    most: bool,
    checked: bool,
    head: ArrayVec<u8, 24>,
    left: u32,
    size: usize,
    frame: Octets,
}

impl Model for Pcap {
    ghost use Rattle.gp_pcap.specs.Reading.{Progress, IsKept};

    ghost Value = { Progress };

    ghost view = { λ p. record { fed = p.fed; phase = p.phase; most = p.most; checked = p.checked; head = p.head.items; left = p.left; size = p.size; frame = p.frame } };

    ghost invariant = { λ p. IsKept (record { fed = p.fed; phase = p.phase; most = p.most; checked = p.checked; head = p.head.items; left = p.left; size = p.size; frame = p.frame }) };
}

impl Pcap {
    /// A reader that was fed nothing.
    pub fn new() -> Pcap
        ensures { Stands [] [] result }
    {
        Pcap {
            fed: 0,
            phase: Phase::Header,
            most: false,
            checked: false,
            head: ArrayVec::new(),
            left: 0,
            size: 0,
            frame: Octets::new(),
        }
    }

    /// Reads the next octet of a file: a header of 24 octets, then packets.
    ///
    /// It gives a packet at the last octet of the packet, and else `None`. It refuses the file with a place, counted in octets
    /// from its beginning, and a reason: at the fourth octet where the first four are no magic number, at the sixth where the
    /// major version isn't 2, at the twenty-fourth where the link type is neither 195 nor 230, and at the twelfth octet of a
    /// packet that includes more than 65,535. From then on each call gives the same refusal.
    #[inline(always)]
    pub fn feed(&mut self, octet: u8) -> Result<Option<Packet>, (u64, PcapReason)>
        requires { self.old.fed < u64.MAX }
        ensures feeds { Feeds self.old octet result self.new }
        ensures count { self.new.fed ≡ self.old.fed + 1 }
    {
        match self.phase {
            Phase::Header => self.feed_header(octet),
            Phase::Head => self.feed_head(octet),
            Phase::Body => self.feed_body(octet),
            Phase::Refused(place, reason) => {
                self.fed += 1;
                Err((place, reason))
            }
        }
    }

    /// Whether no more octets can be counted.
    pub fn is_full(&self) -> bool
        ensures { IsTrue result ↔ (u64.MAX ≤ self.now.fed) }
    {
        self.fed == u64::MAX
    }

    /// Ends the file: it is good where a header and whole packets were fed, and where nothing was refused else `Cut`, with the
    /// number of octets.
    pub fn end(&self) -> Result<(), (u64, PcapReason)>
        ensures ends { Ends self.now result }
        ensures only { IsOnly self.now result }
    {
        self.ending()
    }

    // The same, but for that it is the only answer.
    fn ending(&self) -> Result<(), (u64, PcapReason)>
        ensures { Ends self.now result }
    {
        match self.phase {
            Phase::Refused(place, reason) => Err((place, reason)),
            Phase::Header => Err((self.fed, PcapReason::Cut)),
            Phase::Head if self.head.as_slice().len() == 0 => Ok(()),
            Phase::Head => Err((self.fed, PcapReason::Cut)),
            Phase::Body => Err((self.fed, PcapReason::Cut)),
        }
    }

    // An octet of the header.
    fn feed_header(&mut self, octet: u8) -> Result<Option<Packet>, (u64, PcapReason)>
        requires part { self.old.phase ≡ Phase.Header }
        requires count { self.old.fed < u64.MAX }
        ensures moves { Moves self.old octet result self.new }
        ensures told { IsTold result self.new }
        ensures count { self.new.fed ≡ self.old.fed + 1 }
    {
        self.fed += 1;
        self.head.push(octet);
        match judge_header(self.most, self.head.as_slice()) {
            HeaderStep::On(most) => {
                self.most = most;
                Ok(None)
            }
            HeaderStep::Whole(most, checked) => {
                self.most = most;
                self.checked = checked;
                self.head.clear();
                self.phase = Phase::Head;
                Ok(None)
            }
            HeaderStep::Refused(place, reason) => {
                self.phase = Phase::Refused(place, reason);
                Err((place, reason))
            }
        }
    }

    // An octet of the head of a packet.
    fn feed_head(&mut self, octet: u8) -> Result<Option<Packet>, (u64, PcapReason)>
        requires part { self.old.phase ≡ Phase.Head }
        requires count { self.old.fed < u64.MAX }
        ensures moves { Moves self.old octet result self.new }
        ensures told { IsTold result self.new }
        ensures count { self.new.fed ≡ self.old.fed + 1 }
    {
        self.fed += 1;
        self.head.push(octet);
        match judge_head(self.most, self.checked, self.head.as_slice()) {
            HeadStep::On => Ok(None),
            HeadStep::TooLong => {
                let place = self.fed - 4;
                self.phase = Phase::Refused(place, PcapReason::Length);
                Err((place, PcapReason::Length))
            }
            HeadStep::Empty => {
                let packet = packet_of(self.most, self.head.as_slice(), Octets::new());
                self.head.clear();
                Ok(Some(packet))
            }
            HeadStep::Includes(count, size) => {
                self.left = count;
                self.size = size;
                self.frame = Octets::new();
                self.phase = Phase::Body;
                Ok(None)
            }
        }
    }

    // An octet of what was captured.
    fn feed_body(&mut self, octet: u8) -> Result<Option<Packet>, (u64, PcapReason)>
        requires part { self.old.phase ≡ Phase.Body }
        requires count { self.old.fed < u64.MAX }
        ensures moves { Moves self.old octet result self.new }
        ensures told { IsTold result self.new }
        ensures count { self.new.fed ≡ self.old.fed + 1 }
    {
        self.fed += 1;
        self.left -= 1;
        keep(&mut self.frame, self.size, octet);
        if self.left > 0 {
            return Ok(None);
        }
        let packet = packet_of(self.most, self.head.as_slice(), self.frame.copy());
        self.head.clear();
        self.phase = Phase::Head;
        Ok(Some(packet))
    }
}

// The packet of a whole head and a frame.
fn packet_of(most: bool, head: &[u8], frame: Octets) -> Packet
    requires { 16 ≤ length head.now }
    ensures seconds { result.seconds ≡ four_of most head.now 0 }
    ensures fraction { result.fraction ≡ four_of most head.now 4 }
    ensures frame { result.frame ≡ frame }
{
    Packet {
        seconds: four(most, head, 0),
        fraction: four(most, head, 4),
        frame,
    }
}

// Keeps an octet where the first ones of so many are wanted.
fn keep(frame: &mut Octets, size: usize, octet: u8)
    requires { size ≤ 126 }
    ensures { (body : List ℕ) → frame.old ≡ take size body → frame.new ≡ take size (body ++ octet ∷ []) }
{
    if frame.as_slice().len() < size {
        frame.push(octet);
    }
}
