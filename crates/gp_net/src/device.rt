//! A batteryless device.
ghost use Rattle.std.specs.Prelude.{◌≡◌, ◌≢◌, ◌+◌, ◌<◌, ◌≤◌, ◌%◌, ℕ, suc, length, IfSome, OnSome, IfNone};
ghost use Rattle.gp_frames.specs.Frame.{spelling};
ghost use Rattle.gp_world.specs.Devices as ideal;
ghost use Rattle.gp_net.specs.Devices.{ideal_of};

use gp_base::{Key, KeyKind, Level, Octets, Src, Steps};
use gp_frames::{Ext, Gpdf, Mpdu, encode};
use gp_security::seal_frame;
use std::marker::Brand;
use std::sync::ledger::{Blank, Ledger};

/// A device: what it is, the counter of its last secured frame, and the sequence number of its next frame.
#[derive(Clone, Copy, Debug, PartialEq, Eq)]
pub struct Device {
    pub source: Src,
    pub key: Key,
    pub kind: KeyKind,
    pub level: Level,
    pub device: u8,
    pub counter: u32,
    pub sequence: u8,
}

impl Device {
    /// A device that has used this counter last, and hasn't sent a frame.
    pub fn new(
        source: Src,
        key: Key,
        kind: KeyKind,
        level: Level,
        device: u8,
        counter: u32,
    ) -> Device
        ensures { result ≡ record { source = source; key = key; kind = kind; level = level; device = device; counter = counter; sequence = 0 } }
    {
        Device {
            source,
            key,
            kind,
            level,
            device,
            counter,
            sequence: 0,
        }
    }

    /// The head of a frame with the device's sequence number and this counter. The number comes by value, of which a proof knows
    /// that it fits an octet.
    fn head(&self, sequence: u8, counter: u32) -> Mpdu
        requires { sequence ≡ self.now.sequence }
        ensures { result ≡ ideal.head_of (ideal_of self.now) counter }
    {
        let ext = Ext {
            level: self.level.number(),
            individual: self.kind.individual(),
            rx_after: false,
            to_device: false,
        };
        let frame = Gpdf {
            maintenance: false,
            auto: false,
            ext: Some(ext),
            src: Some(self.source),
            counter: Some(counter),
            body: Octets::new(),
            mic: None,
        };
        Mpdu {
            seq: sequence,
            pan: 0xFFFF,
            dest: 0xFFFF,
            frame,
        }
    }

    /// The octets of the frame that carries a command under the next counter, where the device has one left.
    pub fn press(&mut self, command: &[u8]) -> Option<Octets>
        requires some { 0 < length command.now }
        requires room { length command.now ≤ 104 }
        ensures none { IfNone result ((self.old.counter ≡ 4294967295) × (self.new ≡ self.old)) }
        ensures sends { IfSome result (λ octets. octets ≡ spelling (ideal.sealed (ideal_of self.old) (suc self.old.counter) command.now)) }
        ensures counts { OnSome result ((self.old.counter < 4294967295)
            × (self.new ≡ record self.old { counter = suc self.old.counter; sequence = suc self.old.sequence % 256 })) }
    {
        if self.counter == u32::MAX {
            return None;
        }
        let counter = self.counter + 1;
        let octets = sealed::<Brand>(self, counter, command, Blank::new(1));
        self.counter = counter;
        self.sequence = self.sequence.wrapping_add(1);
        Some(octets)
    }
}

// The octets of the frame that carries a command under a counter, sealed by steps of its own.
fn sealed<L: Ledger>(device: &Device, counter: u32, command: &[u8], blank: Blank) -> Octets
    requires name { blank.name ≡ L.name }
    requires parts { blank.parts ≡ L.parts }
    requires steps { 0 < L.parts }
    requires some { 0 < length command.now }
    requires room { length command.now ≤ 104 }
    ensures { result ≡ spelling (ideal.sealed (ideal_of device.now) counter command.now) }
{
    let mut steps = Steps::<L>::new(blank);
    let head = device.head(device.sequence, counter);
    encode(&seal_frame(&head, command, &device.key, &mut steps))
}
