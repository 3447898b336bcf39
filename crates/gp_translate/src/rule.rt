//! One rule of a translation.

ghost use Rattle.std.specs.Prelude.{◌≡◌};
ghost use Rattle.gp_translate.specs.Rules as words;

use crate::meanings::has_meaning;
use gp_base::{Octets, Src};

/// What a rule makes of a command.
#[derive(Clone, Debug, PartialEq, Eq, Drop)]
pub enum Target {
    /// What the command means in the terms of the ZCL.
    Parsed,
    /// A command of a cluster, with the octets after the device command's identifier as its payload.
    Copy {
        cluster: u16,
        zcl: u8,
    },
    /// A command of a cluster with this payload.
    Fixed {
        cluster: u16,
        zcl: u8,
        payload: Octets,
    },
}

impl Target {
    /// Another target of the same fields. Unlike `clone` it has no failure to answer.
    fn copy(&self) -> Target
        ensures { result ≡ self.now }
    {
        match self {
            Target::Parsed => Target::Parsed,
            Target::Copy { cluster, zcl } => Target::Copy {
                cluster: *cluster,
                zcl: *zcl,
            },
            Target::Fixed {
                cluster,
                zcl,
                payload,
            } => Target::Fixed {
                cluster: *cluster,
                zcl: *zcl,
                payload: payload.copy(),
            },
        }
    }

    /// Whether a command may have the target: its meaning is there, or the fixed payload isn't too long.
    fn fits(&self, command: u8) -> bool
        ensures { result ≡ words.fits self.now command }
    {
        match self {
            Target::Parsed => has_meaning(command),
            Target::Copy { .. } => true,
            Target::Fixed { payload, .. } => payload.as_slice().len() <= FIXED,
        }
    }
}

/// The most octets of a fixed payload.
const FIXED: usize = 32;

/// The first identifier that no rule concerns: from it on commands pair, unpair and configure.
const PAIRING: u8 = 0xE0;

/// A rule of a translation (Zigbee PRO Green Power, A.3.6.1.1, the translation table): which commands of which devices it
/// concerns, and what it makes of them.
#[derive(Clone, Debug, PartialEq, Eq, Drop)]
pub struct Rule {
    /// The device, or `None` for every device.
    pub source: Option<Src>,
    /// The identifier of the device command.
    pub command: u8,
    /// The endpoint that the act is for.
    pub endpoint: u8,
    /// What it makes of the command.
    pub target: Target,
}

impl Default for Rule {
    fn default() -> Rule {
        Rule::standard(0)
    }
}

impl Rule {
    /// The rule that a sink begins with for a command: for every device it parses it for endpoint 1.
    pub(crate) fn standard(command: u8) -> Rule
        ensures { result ≡ words.standard_rule command }
    {
        Rule {
            source: None,
            command,
            endpoint: 1,
            target: Target::Parsed,
        }
    }

    /// Another rule of the same fields. Unlike `clone` it has no failure to answer.
    pub fn copy(&self) -> Rule
        ensures { result ≡ self.now }
    {
        Rule {
            source: self.source,
            command: self.command,
            endpoint: self.endpoint,
            target: self.target.copy(),
        }
    }

    /// Whether the rule is about a command, for a device or for all of them.
    pub(crate) fn concerns(&self, device: Option<Src>, command: u8) -> bool
        ensures { result ≡ words.concerns device command self.now }
    {
        self.command == command && is_for(self.source, device)
    }

    /// Whether the rule may be added anywhere.
    pub(crate) fn has_form(&self) -> bool
        ensures { result ≡ words.has_form self.now }
    {
        self.command < PAIRING && self.target.fits(self.command)
    }
}

/// Whether a rule with this source is for a device, or where none is named for all of them.
fn is_for(source: Option<Src>, device: Option<Src>) -> bool
    ensures { result ≡ words.is_for source device }
{
    match (source, device) {
        (None, _) => true,
        (Some(_), None) => false,
        (Some(own), Some(device)) => own.0 == device.0,
    }
}

/// Why a rule is not added, in the order in which the reasons are tested.
#[derive(Clone, Copy, Debug, PartialEq, Eq)]
pub enum RuleReason {
    /// The command is 0xE0 or above, it is to be parsed and has no meaning in the terms of the ZCL, or the fixed payload
    /// has more than 32 octets.
    Form,
    /// 64 rules stand.
    Full,
    /// Five rules, the new one among them, would have this command, and each no device or one and the same.
    Many,
}
