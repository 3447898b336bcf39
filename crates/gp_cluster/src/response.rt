//! Response.

ghost use Rattle.std.specs.Prelude.{◌≡◌, ◌≤◌, length, OnOk};
ghost use Rattle.gp_base.specs.Field.{Adds, octet_at};
ghost use Rattle.gp_base.specs.Table.{answer};
ghost use Rattle.gp_base.specs.Walk.{TakesTo};
ghost use Rattle.gp_cluster.specs.Response as words;
ghost use Rattle.gp_cluster.specs.Response.{response_end, response_reason, response_at, HasResponseWidths};

use crate::field::{add_string, string, surplus};
use crate::message::{ClusterReason, Response, short};
use crate::options::application_id;
use gp_base::field::{NoRoom, Short, add_number16, add_octet, add_src, number16, octet, src};
use gp_base::{Octets, Reader};

/// Reads a Response after its header.
pub(crate) fn read_response(octets: &[u8], reader: &mut Reader) -> Result<Response, ClusterReason>
    requires same { reader.old.octets ≡ octets.now }
    requires place { reader.old.place ≡ 3 }
    requires room { length octets.now ≤ 127 }
    ensures { result ≡ answer (response_reason octets.now) (response_at octets.now) }
{
    let Ok(options) = octet(reader) else {
        return Err(short(octets));
    };
    if application_id(options as u32) != 0 {
        return Err(ClusterReason::AppId { place: 3 });
    }
    let Ok(message) = take_fields(reader, options) else {
        return Err(short(octets));
    };
    if let Some(reason) = surplus(octets, reader) {
        return Err(reason);
    }
    Ok(message)
}

/// Takes the fields after the options.
fn take_fields(reader: &mut Reader, options: u8) -> Result<Response, Short>
    requires place { reader.old.place ≡ 4 }
    requires room { length reader.old.octets ≤ 127 }
    requires options { options ≡ octet_at reader.old.octets 3 }
    ensures { TakesTo (response_end reader.old.octets) (response_at reader.old.octets) reader.old reader.new result }
{
    let master = number16(reader)?;
    let channel = octet(reader)?;
    let src = src(reader)?;
    let command = octet(reader)?;
    let payload = string(reader)?;
    Ok(Response {
        options,
        master,
        channel,
        src,
        command,
        payload,
    })
}

/// Whether the ApplicationID is 0.
pub(crate) fn response_agrees(message: &Response) -> bool
    ensures { result ≡ words.response_agrees message.now }
{
    application_id(message.options as u32) == 0
}

/// Adds a Response without its header.
#[tactic(auto, unfolding(crate::specs::Response::response))]
pub(crate) fn add_response(out: &mut Octets, message: &Response) -> Result<(), NoRoom>
    ensures added { Adds (words.response message.now) out.old out.new result }
    ensures widths { OnOk result (HasResponseWidths message.now) }
{
    add_octet(out, message.options)?;
    add_number16(out, message.master)?;
    add_octet(out, message.channel)?;
    add_src(out, message.src)?;
    add_octet(out, message.command)?;
    add_string(out, &message.payload)
}
