//! A stop or a fault that is armed.

/// What comes at the armed call: the disk stops, and each call fails until a crash; or that one call fails.
#[derive(Clone, Copy, PartialEq, Eq, Debug)]
pub enum Ending {
    Stop,
    Fault,
}

/// An arming of a stop or a fault.
#[derive(Clone, Copy, PartialEq, Eq, Debug)]
pub enum Arming {
    /// There is none.
    Unarmed,
    /// It is due from the `begin` of this number on, counted from 1.
    Waits {
        begins: u64,
        calls: u64,
        ending: Ending,
    },
    /// So many calls go through, and the next one stops or fails.
    Due {
        calls: u64,
        ending: Ending,
    },
    /// That call has come. The next `begin` or crash ends the arming.
    Spent,
}
