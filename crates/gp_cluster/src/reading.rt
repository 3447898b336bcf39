//! Octets are read as a message.

ghost use Rattle.std.specs.Prelude.{◌≡◌, ◌≤◌, length, IfOk, IfErr, Some, Ok, Err};
ghost use Rattle.gp_cluster.specs.declared.message.Zcl.{Zcl};
ghost use Rattle.gp_cluster.specs.declared.message.ClusterReason.{ClusterReason};
ghost use Rattle.gp_base.specs.Table.{answer};
ghost use Rattle.gp_cluster.specs.Message.{Message, body_reason, body_at, first_reason, reason_behind, reading, message_at};

use crate::kind::{Kind, has_header_form, kind_of};
use crate::message::{Cluster, ClusterReason, Zcl, short};
use crate::mode::read_mode;
use crate::notification::{read_notice, read_notification};
use crate::pairing::read_pairing;
use crate::response::read_response;
use gp_base::Reader;

/// Reads a message of the Green Power cluster (Zigbee Cluster Library, 2.4.1; Zigbee PRO Green Power, A.3.3.4 and
/// A.3.3.5). Numbers of more than one octet are least significant octet first.
///
/// A refusal names the first fault from the left, and its place. The place of `Short` is the length of the input,
/// and that of `Trailing` the first octet after the last field.
pub fn decode(octets: &[u8]) -> Result<Zcl, ClusterReason>
    // What is read is spelled so,
    ensures found { IfOk result (λ zcl. Message zcl octets.now) }
    // and what is spelled so is read.
    ensures only { (zcl : Zcl) → Message zcl octets.now → result ≡ Ok zcl }
    // What is refused has that fault first,
    ensures refused { IfErr result (λ reason. first_reason octets.now ≡ Some reason) }
    // and what has a fault first is refused with it.
    ensures reason { (reason : ClusterReason) → first_reason octets.now ≡ Some reason → result ≡ Err reason }
    // All of it in one, for callers that compute.
    ensures exact { result ≡ reading octets.now }
{
    read(octets)
}

/// Reads the header, and what stands behind it.
#[tactic(auto, unfolding(crate::specs::Message::reading, crate::specs::Message::first_reason))]
fn read(octets: &[u8]) -> Result<Zcl, ClusterReason>
    ensures { result ≡ reading octets.now }
{
    if octets.len() > 127 {
        return Err(ClusterReason::Long { place: 127 });
    }
    let mut reader = Reader::new(octets);
    let Some(header) = reader.take(3) else {
        return Err(short(octets));
    };
    if !has_header_form(header[0]) {
        return Err(ClusterReason::HeaderForm { place: 0 });
    }
    read_behind(octets, &mut reader)
}

/// Reads a message behind a header without fault.
fn read_behind(octets: &[u8], reader: &mut Reader) -> Result<Zcl, ClusterReason>
    requires same { reader.old.octets ≡ octets.now }
    requires place { reader.old.place ≡ 3 }
    requires long { 3 ≤ length octets.now }
    requires room { length octets.now ≤ 127 }
    ensures { result ≡ answer (reason_behind octets.now) (message_at octets.now) }
{
    let Some(kind) = kind_of(octets[0] / 8 % 2 == 1, octets[2]) else {
        return Err(ClusterReason::CommandUnknown { place: 2 });
    };
    match read_body(octets, reader, kind) {
        Ok(body) => Ok(Zcl {
            quiet: octets[0] / 16 % 2 == 1,
            sequence: octets[1],
            body,
        }),
        Err(reason) => Err(reason),
    }
}

/// Reads a message of a kind.
fn read_body(octets: &[u8], reader: &mut Reader, kind: Kind) -> Result<Cluster, ClusterReason>
    requires same { reader.old.octets ≡ octets.now }
    requires place { reader.old.place ≡ 3 }
    requires room { length octets.now ≤ 127 }
    ensures { result ≡ answer (body_reason kind octets.now) (body_at kind octets.now) }
{
    match kind {
        Kind::Notification => Ok(Cluster::Notification(read_notification(octets, reader)?)),
        Kind::CommissioningNotice => {
            Ok(Cluster::CommissioningNotice(read_notice(octets, reader)?))
        }
        Kind::Pairing => Ok(Cluster::Pairing(read_pairing(octets, reader)?)),
        Kind::ProxyMode => Ok(Cluster::ProxyMode(read_mode(octets, reader)?)),
        Kind::Response => Ok(Cluster::Response(read_response(octets, reader)?)),
    }
}
