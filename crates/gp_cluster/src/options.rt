//! The options of the messages, by name (Zigbee PRO Green Power, A.3.3.4 and A.3.3.5).

ghost use Rattle.std.specs.Prelude.{◌≡◌};
ghost use Rattle.gp_cluster.specs.Options as words;

/// The ApplicationID, bits 0 to 2 of all options but those of Proxy Commissioning Mode.
pub fn application_id(options: u32) -> u32
    ensures { result ≡ words.application_id options }
{
    options % 8
}

/// The options of a Notification.
#[derive(Clone, Copy, Debug, PartialEq, Eq)]
pub struct NotificationOptions(pub u16);

impl NotificationOptions {
    /// Bit 3: whether the device's frames go by unicast too.
    pub fn also_unicast(self) -> bool
        ensures { result ≡ words.also_unicast self.0 }
    {
        self.0 / 8 % 2 == 1
    }

    /// Bit 4: whether they go to its derived group too.
    pub fn also_derived(self) -> bool
        ensures { result ≡ words.also_derived self.0 }
    {
        self.0 / 0x10 % 2 == 1
    }

    /// Bit 5: whether they go to a commissioned group too.
    pub fn also_commissioned(self) -> bool
        ensures { result ≡ words.also_commissioned self.0 }
    {
        self.0 / 0x20 % 2 == 1
    }

    /// Bits 6 and 7: the security level of the frame.
    pub fn level(self) -> u8
        ensures { result ≡ words.notification_level self.0 }
    {
        (self.0 / 64 % 4) as u8
    }

    /// Bits 8 to 10: the key type, as a number.
    pub fn key_type(self) -> u8
        ensures { result ≡ words.notification_key_type self.0 }
    {
        (self.0 / 256 % 8) as u8
    }

    /// Bit 11, RxAfterTx: whether the device listens after the frame.
    pub fn rx_after(self) -> bool
        ensures { result ≡ words.notification_rx_after self.0 }
    {
        self.0 / 0x0800 % 2 == 1
    }

    /// Bit 12: whether the proxy's queue is full.
    pub fn queue_is_full(self) -> bool
        ensures { result ≡ words.queue_is_full self.0 }
    {
        self.0 / 0x1000 % 2 == 1
    }

    /// Bit 13: bidirectional capability.
    pub fn is_bidirectional(self) -> bool
        ensures { result ≡ words.notification_is_bidirectional self.0 }
    {
        self.0 / 0x2000 % 2 == 1
    }

    /// Bit 14: whether proxy info is there.
    pub fn has_proxy(self) -> bool
        ensures { result ≡ words.has_proxy self.0 }
    {
        self.0 / 0x4000 % 2 == 1
    }
}

/// The options of a Commissioning Notification.
#[derive(Clone, Copy, Debug, PartialEq, Eq)]
pub struct NoticeOptions(pub u16);

impl NoticeOptions {
    /// Bit 3, RxAfterTx: whether the device listens after the frame.
    pub fn rx_after(self) -> bool
        ensures { result ≡ words.notice_rx_after self.0 }
    {
        self.0 / 8 % 2 == 1
    }

    /// Bits 4 and 5: the security level of the frame.
    pub fn level(self) -> u8
        ensures { result ≡ words.notice_level self.0 }
    {
        (self.0 / 16 % 4) as u8
    }

    /// Bits 6 to 8: the key type, as a number.
    pub fn key_type(self) -> u8
        ensures { result ≡ words.notice_key_type self.0 }
    {
        (self.0 / 64 % 8) as u8
    }

    /// Bit 10: bidirectional capability.
    pub fn is_bidirectional(self) -> bool
        ensures { result ≡ words.notice_is_bidirectional self.0 }
    {
        self.0 / 0x0400 % 2 == 1
    }

    /// Bit 11: whether proxy info is there.
    pub fn has_proxy(self) -> bool
        ensures { result ≡ words.notice_has_proxy self.0 }
    {
        self.0 / 0x0800 % 2 == 1
    }

    /// Bit 9: whether security processing failed, and the MIC is there.
    pub fn has_failed(self) -> bool
        ensures { result ≡ words.has_failed self.0 }
    {
        self.0 / 0x0200 % 2 == 1
    }
}

/// The options of a Pairing, of which three octets are sent.
#[derive(Clone, Copy, Debug, PartialEq, Eq)]
pub struct PairingOptions(pub u32);

impl PairingOptions {
    /// Bit 3, AddSink: whether the DeviceID is there.
    pub fn adds_sink(self) -> bool
        ensures { result ≡ words.adds_sink self.0 }
    {
        self.0 / 0x08 % 2 == 1
    }

    /// Bit 4: RemoveGPD.
    pub fn removes_device(self) -> bool
        ensures { result ≡ words.removes_device self.0 }
    {
        self.0 / 0x10 % 2 == 1
    }

    /// Bits 5 and 6: the communication mode, as a number.
    pub fn mode(self) -> u32
        ensures { result ≡ words.mode self.0 }
    {
        self.0 / 32 % 4
    }

    /// Whether the sink's addresses are there: without RemoveGPD in mode 0b11.
    pub fn has_sink(self) -> bool
        ensures { result ≡ words.has_sink self.0 }
    {
        !self.removes_device() && self.mode() == 3
    }

    /// Whether the sink's group is there: without RemoveGPD in modes 0b01 and 0b10.
    pub fn has_group(self) -> bool
        ensures { result ≡ words.has_group self.0 }
    {
        !self.removes_device() && (self.mode() == 1 || self.mode() == 2)
    }

    /// Whether there is neither RemoveGPD nor a mode, which is refused.
    pub fn lacks_mode(self) -> bool
        ensures { result ≡ words.lacks_mode self.0 }
    {
        !self.removes_device() && self.mode() == 0
    }

    /// Bit 7: fixed location.
    pub fn is_fixed(self) -> bool
        ensures { result ≡ words.is_fixed self.0 }
    {
        self.0 / 0x80 % 2 == 1
    }

    /// Bit 8: MAC sequence number capability.
    pub fn counts_sequence(self) -> bool
        ensures { result ≡ words.counts_sequence self.0 }
    {
        self.0 / 0x0100 % 2 == 1
    }

    /// Bits 9 and 10: the security level of the device.
    pub fn level(self) -> u8
        ensures { result ≡ words.pairing_level self.0 }
    {
        (self.0 / 512 % 4) as u8
    }

    /// Bits 11 to 13: the key type, as a number.
    pub fn key_type(self) -> u8
        ensures { result ≡ words.pairing_key_type self.0 }
    {
        (self.0 / 2048 % 8) as u8
    }

    /// Bit 14: whether the counter is there.
    pub fn has_counter(self) -> bool
        ensures { result ≡ words.has_counter self.0 }
    {
        self.0 / 0x4000 % 2 == 1
    }

    /// Bit 15: whether the key is there.
    pub fn has_key(self) -> bool
        ensures { result ≡ words.has_key self.0 }
    {
        self.0 / 0x8000 % 2 == 1
    }

    /// Bit 16: whether the alias is there.
    pub fn has_alias(self) -> bool
        ensures { result ≡ words.has_alias self.0 }
    {
        self.0 / 0x1_0000 % 2 == 1
    }

    /// Bit 17: whether the radius is there.
    pub fn has_radius(self) -> bool
        ensures { result ≡ words.has_radius self.0 }
    {
        self.0 / 0x2_0000 % 2 == 1
    }
}

/// The options of a Proxy Commissioning Mode.
#[derive(Clone, Copy, Debug, PartialEq, Eq)]
pub struct ModeOptions(pub u8);

impl ModeOptions {
    /// Bit 0: whether the proxy enters commissioning mode; else it leaves it.
    pub fn enters(self) -> bool
        ensures { result ≡ words.enters self.0 }
    {
        self.0 % 2 == 1
    }

    /// Bit 1: whether the window is there.
    pub fn has_window(self) -> bool
        ensures { result ≡ words.has_window self.0 }
    {
        self.0 / 2 % 2 == 1
    }

    /// Bit 2: whether the mode ends with the first pairing.
    pub fn ends_on_pairing(self) -> bool
        ensures { result ≡ words.ends_on_pairing self.0 }
    {
        self.0 / 4 % 2 == 1
    }

    /// Bit 3: whether the mode ends with a command to leave it.
    pub fn ends_on_command(self) -> bool
        ensures { result ≡ words.ends_on_command self.0 }
    {
        self.0 / 8 % 2 == 1
    }

    /// Bit 4: whether the channel is there.
    pub fn has_channel(self) -> bool
        ensures { result ≡ words.has_channel self.0 }
    {
        self.0 / 0x10 % 2 == 1
    }

    /// Bit 5: whether the proxy tells the sink by unicast what it hears.
    pub fn tells_by_unicast(self) -> bool
        ensures { result ≡ words.tells_by_unicast self.0 }
    {
        self.0 / 0x20 % 2 == 1
    }
}
