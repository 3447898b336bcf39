//! What a sink does on a command: commands of the ZCL.

ghost use Rattle.std.specs.Prelude.{◌≡◌, ◌<◌, ◌≤◌, [], ◌∷◌, ◌++◌, length};

use arrayvec::ArrayVec;
use gp_base::Octets;
use std::marker::Model;

/// The most acts of one command.
pub(crate) const MOST: usize = 4;

/// A command of the Zigbee Cluster Library, to be carried out at an endpoint.
#[derive(Clone, Debug, PartialEq, Eq, Drop)]
pub struct Act {
    /// The endpoint.
    pub endpoint: u8,
    /// The cluster.
    pub cluster: u16,
    /// It is a general command, and else one of the cluster (ZCL 2.4.1.1.1).
    pub general: bool,
    /// The command's identifier.
    pub zcl: u8,
    /// The command's payload.
    pub payload: Octets,
}

impl Default for Act {
    fn default() -> Act {
        Act {
            endpoint: 0,
            cluster: 0,
            general: false,
            zcl: 0,
            payload: Octets::new(),
        }
    }
}

/// The acts of one command, at most four.
#[derive(Clone, Debug, PartialEq, Eq, Drop)]
pub struct Acts {
    items: ArrayVec<Act, MOST>,
}

impl Model for Acts {
    ghost use Rattle.std.specs.Prelude.{List};
    ghost use Rattle.gp_translate.specs.declared.act.Act.{Act};

    ghost Value = { List Act };

    ghost view = { λ a. a.items.items };

    ghost inverse = { λ xs. record { items = record { items = xs } } };
}

impl Acts {
    /// No acts.
    pub fn none() -> Acts
        ensures { result ≡ [] }
    {
        Acts {
            items: ArrayVec::new(),
        }
    }

    /// The acts, in the order of the rules that gave them.
    pub fn as_slice(&self) -> &[Act]
        ensures value { result.now ≡ self.now }
        ensures within { length result.now ≤ 4 }
    {
        self.items.as_slice()
    }

    /// Adds an act at the end, where there are fewer than four.
    pub(crate) fn push(&mut self, act: Act)
        requires { length self.old < 4 }
        ensures { self.new ≡ self.old ++ act ∷ [] }
    {
        self.items.push(act);
    }
}
