//! A key, its MIC and a counter, as Commissioning and its reply carry them.

ghost use Rattle.std.specs.Prelude.{◌≡◌, OnOk};
ghost use Rattle.gp_base.specs.Field.{Adds};
ghost use Rattle.gp_base.specs.Walk.{Takes, IsWithin};
ghost use Rattle.gp_commands.specs.Inside.{keying_octets, HasKeyingWidths};
ghost use Rattle.gp_commands.specs.Keying.{keying_size, keying_at, reserved};

use crate::command::CommandReason;
use gp_base::field::{
    NoRoom, Short, add_key_if, add_mic_if, add_number32_if, key_if, mic_if, number32_if,
};
use gp_base::{Key, Octets, Reader};
use std::marker::Model;

/// Which of the three are there.
#[derive(Debug, Drop)]
pub(crate) struct Wanted {
    pub key: bool,
    pub mic: bool,
    pub counter: bool,
}

impl Model for Wanted {
    ghost use Rattle.gp_commands.specs.Keying.{Wanted as Told};

    ghost Value = { Told };

    ghost view = { λ w. record { key = w.key; mic = w.mic; counter = w.counter } };
}

/// The three, as far as they are there.
#[derive(Debug, Drop)]
pub(crate) struct Keying {
    pub key: Option<Key>,
    pub mic: Option<[u8; 4]>,
    pub counter: Option<u32>,
}

impl Model for Keying {
    ghost use Rattle.gp_commands.specs.Keying.{Keying as Told};

    ghost Value = { Told };

    ghost view = { λ k. record { key = k.key; mic = k.mic; counter = k.counter } };
}

/// Why a level or a kind of key is refused: level 1, and the kinds 5 and 6, are reserved.
pub(crate) fn reserved_reason(level: u8, kind: u8) -> Option<CommandReason>
    ensures { result ≡ reserved level kind }
{
    if level == 1 {
        return Some(CommandReason::ReservedLevel);
    }
    if kind == 5 || kind == 6 {
        return Some(CommandReason::ReservedKeyKind);
    }
    None
}

/// Takes the three from a reader.
#[tactic(auto, unfolding(crate::specs::Keying::keying_size, crate::specs::Keying::keying_at))]
pub(crate) fn take_keying(reader: &mut Reader, wanted: Wanted) -> Result<Keying, Short>
    requires { IsWithin reader.old }
    ensures { Takes (keying_size wanted) (keying_at wanted reader.old.octets reader.old.place) reader.old reader.new result }
{
    let key = key_if(reader, wanted.key)?;
    let mic = mic_if(reader, wanted.mic)?;
    let counter = number32_if(reader, wanted.counter)?;
    Ok(Keying { key, mic, counter })
}

/// Adds the three at the end.
#[tactic(auto, unfolding(crate::specs::Inside::keying_octets))]
pub(crate) fn add_keying(out: &mut Octets, keying: Keying) -> Result<(), NoRoom>
    ensures added { Adds (keying_octets keying) out.old out.new result }
    ensures widths { OnOk result (HasKeyingWidths keying) }
{
    add_key_if(out, keying.key)?;
    add_mic_if(out, keying.mic)?;
    add_number32_if(out, keying.counter)
}
