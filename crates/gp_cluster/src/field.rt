//! The fields that the cluster's messages have beside those of other formats: each is taken from a reader, and added
//! to octets that are being spelled. `Short` says that an octet is missing, and `NoRoom` that there is no room.

ghost use Rattle.std.specs.Prelude.{◌≡◌, ◌<◌, ◌≤◌, ◌^◌, length, IfSome, OnOk, if◌then◌else◌, nat_lt, Some, None};
ghost use Rattle.gp_base.specs.Field.{optional, size_if, value_if, Adds};
ghost use Rattle.gp_base.specs.Walk.{Takes, IsWithin};
ghost use Rattle.gp_cluster.specs.declared.message.ClusterReason.{ClusterReason};
ghost use Rattle.gp_cluster.specs.Fields.{three_octets, three_at, octet_string, IsString, string_size, string_at, proxy_octets, proxy_at, sink_octets, sink_at};

use crate::message::ClusterReason;
use gp_base::field::{
    NoRoom, Short, add, add_counted, add_number16, add_number64, add_octet, number16, number64,
    octet, octets,
};
use gp_base::{Octets, Reader};

/// The next three octets as a number, the least significant first.
pub(crate) fn number24(reader: &mut Reader) -> Result<u32, Short>
    ensures { Takes 3 (three_at reader.old.octets reader.old.place) reader.old reader.new result }
{
    let Some(taken) = reader.take(3) else {
        return Err(Short);
    };
    Ok(u32::from_le_bytes([taken[0], taken[1], taken[2], 0]))
}

/// An octet string: its length, and so many octets; FF says that it is unspecified.
pub(crate) fn string(reader: &mut Reader) -> Result<Option<Octets>, Short>
    requires { length reader.old.octets ≤ 127 }
    ensures { Takes (string_size reader.old.octets reader.old.place) (string_at reader.old.octets reader.old.place) reader.old reader.new result }
{
    let count = octet(reader)?;
    if count == 0xFF {
        return Ok(None);
    }
    Ok(Some(octets(reader, count as usize)?))
}

/// Proxy info that is there or not: the proxy's address, and the link.
pub(crate) fn proxy_if(reader: &mut Reader, there: bool) -> Result<Option<(u16, u8)>, Short>
    requires { IsWithin reader.old }
    ensures { Takes (size_if there 3) (value_if there (proxy_at reader.old.octets reader.old.place)) reader.old reader.new result }
{
    if !there {
        return Ok(None);
    }
    let address = number16(reader)?;
    let link = octet(reader)?;
    Ok(Some((address, link)))
}

/// A sink that is there or not: its IEEE address, and its network address.
pub(crate) fn sink_if(reader: &mut Reader, there: bool) -> Result<Option<(u64, u16)>, Short>
    requires { IsWithin reader.old }
    ensures { Takes (size_if there 10) (value_if there (sink_at reader.old.octets reader.old.place)) reader.old reader.new result }
{
    if !there {
        return Ok(None);
    }
    let ieee = number64(reader)?;
    let address = number16(reader)?;
    Ok(Some((ieee, address)))
}

/// The fault of octets that go on after the last field.
pub(crate) fn surplus(octets: &[u8], reader: &Reader) -> Option<ClusterReason>
    requires same { reader.now.octets ≡ octets.now }
    requires room { length octets.now ≤ 127 }
    ensures { result ≡ (if nat_lt reader.now.place (length octets.now) then Some (ClusterReason.Trailing reader.now.place) else None) }
{
    let place = reader.place();
    if place < octets.len() {
        return Some(ClusterReason::Trailing { place: place as u8 });
    }
    None
}

/// Adds a number as three octets, the least significant first.
pub(crate) fn add_number24(out: &mut Octets, number: u32) -> Result<(), NoRoom>
    ensures { Adds (three_octets number) out.old out.new result }
{
    let octets = number.to_le_bytes();
    add(out, &octets[..3])
}

/// Adds an octet string.
pub(crate) fn add_string(out: &mut Octets, string: &Option<Octets>) -> Result<(), NoRoom>
    ensures added { Adds (octet_string string.now) out.old out.new result }
    ensures width { OnOk result (IsString string.now) }
{
    match string {
        Some(octets) => add_counted(out, octets),
        None => add_octet(out, 0xFF),
    }
}

/// Adds proxy info that is there or not.
pub(crate) fn add_proxy_if(out: &mut Octets, proxy: Option<(u16, u8)>) -> Result<(), NoRoom>
    ensures added { Adds (optional proxy_octets proxy) out.old out.new result }
    ensures width { IfSome proxy (λ p. p.0 < 2 ^ 16) }
{
    match proxy {
        Some((address, link)) => {
            add_number16(out, address)?;
            add_octet(out, link)
        }
        None => Ok(()),
    }
}

/// Adds a sink that is there or not.
pub(crate) fn add_sink_if(out: &mut Octets, sink: Option<(u64, u16)>) -> Result<(), NoRoom>
    ensures added { Adds (optional sink_octets sink) out.old out.new result }
    ensures width { IfSome sink (λ s. (s.0 < 2 ^ 64) × (s.1 < 2 ^ 16)) }
{
    match sink {
        Some((ieee, address)) => {
            add_number64(out, ieee)?;
            add_number16(out, address)
        }
        None => Ok(()),
    }
}
