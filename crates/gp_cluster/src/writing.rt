//! Which messages have a spelling, and that spelling.

ghost use Rattle.std.specs.Prelude.{◌≡◌, ◌<◌, ◌≤◌, ◌↔◌, length, IsTrue, OnOk, MatchResult};
ghost use Rattle.std.specs.Bool.{OnTrue};
ghost use Rattle.gp_base.specs.Field.{Adds, IsOctets};
ghost use Rattle.gp_cluster.specs.Message as words;
ghost use Rattle.gp_cluster.specs.Message.{Message, IsValid, spelling, HasWidths};

use crate::kind::{control, kind_in};
use crate::message::{Cluster, Zcl};
use crate::mode::{add_mode, mode_agrees};
use crate::notification::{add_notice, add_notification, notice_agrees, notification_agrees};
use crate::pairing::{add_pairing, pairing_agrees};
use crate::response::{add_response, response_agrees};
use gp_base::Octets;
use gp_base::field::{NoRoom, add};

/// Whether a message is one that some octets decode to (Zigbee PRO Green Power, A.3.3.4 and A.3.3.5): the ApplicationID
/// is 0 where there is one, each field is there exactly where the options say so, the options of a Pairing fit three
/// octets and have RemoveGPD or a communication mode other than 0b00, and the whole has at most 127 octets.
pub fn valid(zcl: &Zcl) -> bool
    ensures { IsTrue result ↔ IsValid zcl.now }
{
    fields_agree(&zcl.body) && has_room(zcl)
}

/// The octets that decode to a valid message (Zigbee Cluster Library, 2.4.1; Zigbee PRO Green Power, A.3.3.4 and
/// A.3.3.5). There is one such list. Numbers of more than one octet are least significant octet first.
pub fn encode(zcl: &Zcl) -> Octets
    requires { IsValid zcl.now }
    ensures spelled { Message zcl.now result }
{
    match spell(zcl) {
        Ok(octets) => octets,
        Err(_) => unreachable!(),
    }
}

/// Whether the ApplicationID is 0, and each field is there where the options say so.
fn fields_agree(body: &Cluster) -> bool
    ensures { result ≡ words.fields_agree body.now }
{
    match body {
        Cluster::Notification(message) => notification_agrees(message),
        Cluster::CommissioningNotice(message) => notice_agrees(message),
        Cluster::Pairing(message) => pairing_agrees(message),
        Cluster::ProxyMode(message) => mode_agrees(message),
        Cluster::Response(message) => response_agrees(message),
    }
}

/// Whether a message has at most 127 octets.
fn has_room(zcl: &Zcl) -> bool
    ensures room { IsTrue result ↔ (length (spelling zcl.now) ≤ 127) }
    ensures octets { OnTrue result (IsOctets (spelling zcl.now)) }
    ensures widths { OnTrue result (HasWidths zcl.now.body) }
{
    match spell(zcl) {
        Ok(octets) => octets.as_slice().len() <= 127,
        Err(_) => false,
    }
}

/// The octets of a message, `NoRoom` where they are more than 127.
fn spell(zcl: &Zcl) -> Result<Octets, NoRoom>
    ensures octets { MatchResult result (λ octets. octets ≡ spelling zcl.now) (λ _. 127 < length (spelling zcl.now)) }
    ensures widths { OnOk result (HasWidths zcl.now.body) }
{
    let mut out = Octets::new();
    add_message(&mut out, zcl)?;
    Ok(out)
}

/// Adds a message.
#[tactic(auto, unfolding(crate::specs::Message::spelling))]
fn add_message(out: &mut Octets, zcl: &Zcl) -> Result<(), NoRoom>
    ensures added { Adds (spelling zcl.now) out.old out.new result }
    ensures widths { OnOk result (HasWidths zcl.now.body) }
{
    let kind = kind_in(&zcl.body);
    let control = control(kind.is_from_sink(), zcl.quiet);
    add(out, &[control, zcl.sequence, kind.command_number()])?;
    add_body(out, &zcl.body)
}

/// Adds what stands behind the header.
fn add_body(out: &mut Octets, body: &Cluster) -> Result<(), NoRoom>
    ensures added { Adds (words.body body.now) out.old out.new result }
    ensures widths { OnOk result (HasWidths body.now) }
{
    match body {
        Cluster::Notification(message) => add_notification(out, message),
        Cluster::CommissioningNotice(message) => add_notice(out, message),
        Cluster::Pairing(message) => add_pairing(out, message),
        Cluster::ProxyMode(message) => add_mode(out, message),
        Cluster::Response(message) => add_response(out, message),
    }
}
