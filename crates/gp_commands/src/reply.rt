//! The Commissioning Reply command.

ghost use Rattle.std.specs.Prelude.{◌≡◌, ◌≤◌, ◌<◌, ◌^◌, length, IfSome, OnOk};
ghost use Rattle.gp_base.specs.Field.{Adds};
ghost use Rattle.gp_base.specs.Table.{answer};
ghost use Rattle.gp_commands.specs.Inside.{reply_in_parts, reply_header_octets};
ghost use Rattle.gp_commands.specs.Reply.{reply_reason, reply_at, reply_fields_agree, HasReplyWidths};

use crate::command::{CommandReason, Reply, short};
use crate::keying::{Keying, Wanted, add_keying, reserved_reason, take_keying};
use gp_base::field::{NoRoom, add, add_number16_if, add_octet, is_set, number16_if, octet, rest};
use gp_base::{Octets, Reader};

/// Which of key, MIC and counter the options say to be there.
fn wanted_by(options: u8) -> Wanted
    ensures { result ≡ Rattle.gp_commands.specs.Reply.reply_wanted options }
{
    let key = is_set(options, 2);
    let mic = key && is_set(options, 4);
    Wanted {
        key,
        mic,
        counter: mic,
    }
}

/// Reads a Reply after its identifier.
pub(crate) fn read_reply(octets: &[u8], reader: &mut Reader) -> Result<Reply, CommandReason>
    requires same { reader.old.octets ≡ octets.now }
    requires place { reader.old.place ≡ 1 }
    requires room { length octets.now ≤ 117 }
    ensures { result ≡ answer (reply_reason octets.now) (reply_at octets.now) }
{
    let Ok(options) = octet(reader) else {
        return Err(short(octets));
    };
    if let Some(reason) = reserved_reason(options / 8 % 4, options / 32) {
        return Err(reason);
    }
    let Ok(pan) = number16_if(reader, is_set(options, 1)) else {
        return Err(short(octets));
    };
    let Ok(keying) = take_keying(reader, wanted_by(options)) else {
        return Err(short(octets));
    };
    Ok(Reply {
        options,
        pan,
        key: keying.key,
        key_mic: keying.mic,
        counter: keying.counter,
        rest: rest(reader),
    })
}

/// Whether each field is there exactly where its flag says so, and neither the level nor the kind of key is
/// reserved.
pub(crate) fn fields_agree(reply: &Reply) -> bool
    ensures { result ≡ reply_fields_agree reply.now }
{
    let wanted = wanted_by(reply.options);
    reply.pan.is_some() == is_set(reply.options, 1)
        && reserved_reason(reply.options / 8 % 4, reply.options / 32).is_none()
        && reply.key.is_some() == wanted.key
        && reply.key_mic.is_some() == wanted.mic
        && reply.counter.is_some() == wanted.counter
}

/// Adds a Reply without its identifier.
pub(crate) fn add_reply(out: &mut Octets, reply: &Reply) -> Result<(), NoRoom>
    ensures added { Adds (Rattle.gp_commands.specs.Reply.reply reply.now) out.old out.new result }
    ensures widths { OnOk result (HasReplyWidths reply.now) }
{
    add_parts(out, reply)
}

/// Adds its two parts and the rest.
fn add_parts(out: &mut Octets, reply: &Reply) -> Result<(), NoRoom>
    ensures added { Adds (reply_in_parts reply.now) out.old out.new result }
    ensures widths { OnOk result (HasReplyWidths reply.now) }
{
    add_header(out, reply)?;
    add_keying(
        out,
        Keying {
            key: reply.key,
            mic: reply.key_mic,
            counter: reply.counter,
        },
    )?;
    add(out, reply.rest.as_slice())
}

/// Adds the part before the key.
#[tactic(auto, unfolding(crate::specs::Inside::reply_header_octets))]
fn add_header(out: &mut Octets, reply: &Reply) -> Result<(), NoRoom>
    ensures added { Adds (reply_header_octets reply.now) out.old out.new result }
    ensures pan { OnOk result (IfSome reply.now.pan (λ n. n < 2 ^ 16)) }
{
    add_octet(out, reply.options)?;
    add_number16_if(out, reply.pan)
}
