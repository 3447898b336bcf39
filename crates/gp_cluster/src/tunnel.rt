//! What Notification and Commissioning Notification have in common.

ghost use Rattle.std.specs.Prelude.{◌≡◌, ◌≤◌, length, OnOk};
ghost use Rattle.gp_base.specs.Field.{Adds};
ghost use Rattle.gp_base.specs.Walk.{TakesTo};
ghost use Rattle.gp_cluster.specs.Inside.{HasTunnelWidths};
ghost use Rattle.gp_cluster.specs.Tunnel.{tunnel_end, tunnel_at, tunnel_octets};

use crate::field::{add_proxy_if, add_string, proxy_if, string};
use gp_base::field::{NoRoom, Short, add_number32, add_octet, add_src, number32, octet, src};
use gp_base::{Octets, Reader, Src};
use std::marker::Model;

/// A frame of a device, and the proxy that tunnels it.
#[derive(Debug, Drop)]
pub(crate) struct Tunnel {
    pub src: Src,
    pub counter: u32,
    pub command: u8,
    pub payload: Option<Octets>,
    pub proxy: Option<(u16, u8)>,
}

impl Model for Tunnel {
    ghost use Rattle.gp_cluster.specs.Tunnel.{Tunnel as Told};

    ghost Value = { Told };

    ghost view = { λ t. record { src = t.src; counter = t.counter; command = t.command; payload = t.payload; proxy = t.proxy } };
}

/// Takes the frame and the proxy.
#[tactic(auto, unfolding(crate::specs::Tunnel::tunnel_end, crate::specs::Tunnel::tunnel_at))]
pub(crate) fn take_tunnel(reader: &mut Reader, with_proxy: bool) -> Result<Tunnel, Short>
    requires place { reader.old.place ≡ 5 }
    requires room { length reader.old.octets ≤ 127 }
    ensures { TakesTo (tunnel_end with_proxy reader.old.octets)
        (tunnel_at with_proxy reader.old.octets) reader.old reader.new result }
{
    let src = src(reader)?;
    let counter = number32(reader)?;
    let command = octet(reader)?;
    let payload = string(reader)?;
    let proxy = proxy_if(reader, with_proxy)?;
    Ok(Tunnel {
        src,
        counter,
        command,
        payload,
        proxy,
    })
}

/// Adds the frame and the proxy.
#[tactic(auto, unfolding(crate::specs::Tunnel::tunnel_octets))]
pub(crate) fn add_tunnel(
    out: &mut Octets,
    src: Src,
    counter: u32,
    command: u8,
    payload: &Option<Octets>,
    proxy: Option<(u16, u8)>,
) -> Result<(), NoRoom>
    ensures added { Adds (tunnel_octets (record { src = src; counter = counter; command = command; payload = payload.now; proxy = proxy })) out.old out.new result }
    ensures widths { OnOk result (HasTunnelWidths (record { src = src; counter = counter; command = command; payload = payload.now; proxy = proxy })) }
{
    add_src(out, src)?;
    add_number32(out, counter)?;
    add_octet(out, command)?;
    add_string(out, payload)?;
    add_proxy_if(out, proxy)
}
