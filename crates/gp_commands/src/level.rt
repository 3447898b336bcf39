//! Move and Step of level control.

ghost use Rattle.std.specs.Prelude.{◌≡◌, ◌<◌, ◌≤◌, ◌^◌, ◌↔◌, ◌∷◌, ◌++◌, length, IsTrue, IfSome, OnOk};
ghost use Rattle.std.specs.Int.{w16, to_le_bytes};
ghost use Rattle.gp_base.specs.Field.{optional, Adds, octet as one, octet_at};
ghost use Rattle.gp_base.specs.Table.{answer};
ghost use Rattle.gp_commands.specs.Command.{ends_before};
ghost use Rattle.gp_commands.specs.Level.{move_at, step_at, HasMoveRest, HasStepRest};

use crate::command::{CommandReason, GpdCommand, short};
use gp_base::field::{
    NoRoom, add, add_number16_if, add_octet, add_octet_if, number16, octet, rest,
};
use gp_base::{Octets, Reader};

/// Reads a Move after its identifier: the rate is there where an octet is left.
pub(crate) fn read_move(id: u8, reader: &mut Reader) -> GpdCommand
    requires identifier { id ≡ octet_at reader.old.octets 0 }
    requires place { reader.old.place ≡ 1 }
    requires within { 1 ≤ length reader.old.octets }
    requires room { length reader.old.octets ≤ 117 }
    ensures { result ≡ move_at reader.old.octets }
{
    let rate = octet(reader).ok();
    let rest = rest(reader);
    GpdCommand::Move { id, rate, rest }
}

/// Reads a Step after its identifier and its size. The time is there where two octets are
/// left after the size; where one is left, that octet is the rest.
pub(crate) fn read_step(
    octets: &[u8],
    id: u8,
    reader: &mut Reader,
) -> Result<GpdCommand, CommandReason>
    requires same { reader.old.octets ≡ octets.now }
    requires identifier { id ≡ octet_at octets.now 0 }
    requires place { reader.old.place ≡ 1 }
    requires room { length octets.now ≤ 117 }
    ensures { result ≡ answer (ends_before 2 octets.now) (step_at octets.now) }
{
    let Ok(size) = octet(reader) else {
        return Err(short(octets));
    };
    let time = number16(reader).ok();
    let rest = rest(reader);
    Ok(GpdCommand::Step {
        id,
        size,
        time,
        rest,
    })
}

/// Whether a Move may have these: without a rate there is no rest.
pub(crate) fn has_move_rest(rate: Option<u8>, rest: &Octets) -> bool
    ensures { IsTrue result ↔ HasMoveRest rate rest.now }
{
    rate.is_some() || rest.as_slice().is_empty()
}

/// Whether a Step may have these: without a time there is at most one octet of rest.
pub(crate) fn has_step_rest(time: Option<u16>, rest: &Octets) -> bool
    ensures { IsTrue result ↔ HasStepRest time rest.now }
{
    time.is_some() || rest.as_slice().len() <= 1
}

/// Adds a Move.
pub(crate) fn add_move(
    out: &mut Octets,
    id: u8,
    rate: Option<u8>,
    rest: &Octets,
) -> Result<(), NoRoom>
    ensures { Adds (id ∷ (optional one rate ++ rest.now)) out.old out.new result }
{
    add_octet(out, id)?;
    add_octet_if(out, rate)?;
    add(out, rest.as_slice())
}

/// Adds a Step.
pub(crate) fn add_step(
    out: &mut Octets,
    id: u8,
    size: u8,
    time: Option<u16>,
    rest: &Octets,
) -> Result<(), NoRoom>
    ensures added { Adds (id ∷ size ∷ (optional (to_le_bytes w16) time ++ rest.now)) out.old out.new result }
    ensures width { OnOk result (IfSome time (λ n. n < 2 ^ 16)) }
{
    add(out, &[id, size])?;
    add_number16_if(out, time)?;
    add(out, rest.as_slice())
}
