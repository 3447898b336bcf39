//! How far a capture file has been listed.

ghost use Rattle.std.specs.Prelude.{◌≡◌, ℕ, ◌+◌, ◌<◌, ◌≤◌, ◌↔◌, [], ◌∷◌, ◌++◌, length, take, IsTrue, OnOk, OnErr};
ghost use Rattle.std.specs.Io.KnownBytes.{Appends};
ghost use Rattle.gp_base.specs.Outside.{one_more};
ghost use Rattle.gp_pcap.specs.Reading.{Stands};
ghost use Rattle.gp_packets.specs.Progress.{Goes, Lists, OutCounts, place};

use crate::stop::Stop;
use gp_base::{Failed, Key, Out};
use gp_lines::write_all;
use gp_listing::push_packet;
use gp_pcap::{Packet, Pcap};

/// The greatest number of packets.
const PACKET_LIMIT: u64 = 1_000_000;

/// How many octets of text may wait to be written.
const HELD: usize = 65_536;

/// How far a capture file has been listed.
#[derive(Drop)]
pub struct Progress {
    /// The reader of the file.
    pub reader: Pcap,
    /// How many packets were listed.
    pub count: u64,
    /// What isn't written yet of their text.
    pub text: Vec<u8>,
}

impl Progress {
    /// No octet yet, and room for text.
    pub fn start(text: Vec<u8>) -> Progress
        requires { text.items ≡ [] }
        ensures reader { Stands [] [] result.reader }
        ensures count { result.count ≡ 0 }
        ensures text { result.text.items ≡ [] }
    {
        Progress {
            reader: Pcap::new(),
            count: 0,
            text,
        }
    }

    /// Takes the next piece of the file.
    pub fn take_piece<O: Out>(
        &mut self,
        key: Option<Key>,
        out: &mut O,
        piece: &[u8],
    ) -> Result<(), Stop>
        requires { self.old.reader.fed + length piece.now ≤ u64.MAX }
        ensures goes { Goes key (place self.old.reader self.old.count self.old.text.items (O.written out.old)) piece.now result
            (place self.new.reader self.new.count self.new.text.items (O.written out.new)) }
        ensures fed { OnOk result (self.new.reader.fed ≡ self.old.reader.fed + length piece.now) }
        ensures counts { OutCounts result (O.faults out.old) (O.faults out.new) }
    {
        let mut rest = piece;
        'octets: while let Some((octet, after)) = rest.split_first() {
            match self.take_octet(key, out, *octet) {
                Ok(()) => {}
                Err(stop) => return Err(stop),
            }
            rest = after;
        }
        Ok(())
    }

    // Takes the next octet of the file.
    #[inline(always)]
    fn take_octet<O: Out>(&mut self, key: Option<Key>, out: &mut O, octet: u8) -> Result<(), Stop>
        requires { self.old.reader.fed < u64.MAX }
        ensures goes { Goes key (place self.old.reader self.old.count self.old.text.items (O.written out.old)) (octet ∷ []) result
            (place self.new.reader self.new.count self.new.text.items (O.written out.new)) }
        ensures fed { OnOk result (self.new.reader.fed ≡ self.old.reader.fed + 1) }
        ensures counts { OutCounts result (O.faults out.old) (O.faults out.new) }
    {
        if self.is_full() {
            return Err(Stop::TooLong);
        }
        match self.reader.feed(octet) {
            Ok(None) => Ok(()),
            Ok(Some(packet)) => self.take_packet(key, out, &packet),
            Err((place, reason)) => Err(Stop::Bad(place, reason)),
        }
    }

    // Whether as many packets were listed as there may be.
    fn is_full(&self) -> bool
        ensures { IsTrue result ↔ (1000000 ≤ self.now.count) }
    {
        self.count >= PACKET_LIMIT
    }

    // Lists a packet, and writes the text where more waits than may.
    fn take_packet<O: Out>(
        &mut self,
        key: Option<Key>,
        out: &mut O,
        packet: &Packet,
    ) -> Result<(), Stop>
        requires { self.old.count < 1000000 }
        ensures lists { Lists key packet.now (place self.old.reader self.old.count self.old.text.items (O.written out.old)) result
            (place self.new.reader self.new.count self.new.text.items (O.written out.new)) }
        ensures reader { self.new.reader ≡ self.old.reader }
        ensures counts { OutCounts result (O.faults out.old) (O.faults out.new) }
    {
        if push_packet(&mut self.text, key, self.count, packet).is_err() {
            return Err(Stop::NoMemory);
        }
        self.count += 1;
        if self.text.len() <= HELD {
            return Ok(());
        }
        match self.flush(out) {
            Ok(()) => Ok(()),
            Err(_) => Err(Stop::WriteFault),
        }
    }

    /// Writes the text that waits.
    pub fn flush<O: Out>(&mut self, out: &mut O) -> Result<(), Failed>
        ensures ok { OnOk result (Appends (O.written out.old) (O.written out.new) self.old.text.items) }
        ensures text { OnOk result (self.new.text.items ≡ []) }
        ensures reader { self.new.reader ≡ self.old.reader }
        ensures count { self.new.count ≡ self.old.count }
        ensures err { OnErr result ((count : ℕ) × Appends (O.written out.old) (O.written out.new) (take count self.old.text.items)) }
        ensures good { OnOk result (O.faults out.new ≡ O.faults out.old) }
        ensures failed { OnErr result (O.faults out.new ≡ one_more (O.faults out.old)) }
    {
        let Ok(()) = write_all(out, self.text.as_slice()) else {
            return Err(Failed);
        };
        self.text.clear();
        Ok(())
    }
}
