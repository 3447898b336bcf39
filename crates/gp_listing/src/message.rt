//! The listing of a message of the Green Power cluster.

ghost use Rattle.std.specs.Prelude.{◌≡◌, ℕ, ◌++◌, Some, None, OnOk};
ghost use Rattle.gp_cluster.specs.Message.{reading};
ghost use Rattle.gp_listing.specs.Messages.{string_digits, field8, field16, inner_text, proxy_text, sink_text, key_text, window_text, notification_text, notice_text, route_text, extras_text, pairing_text, mode_text, response_text, message_name, fields_text, message_text, cluster_reason_name, cluster_reason_place, sent_text};

use crate::listing::{push_bad, push_counter, push_mic, push_src};
use crate::text::{push_field, push_hex, push_number, push_text};
use gp_base::{Key, Octets};
use gp_cluster::{
    Cluster, ClusterReason, CommissioningNotice, Notification, Pairing, ProxyMode, Response, Zcl,
    decode,
};
use std::alloc::AllocError;

/// Adds what octets behind `zcl ` read as: a message, or the reason why they are none and its place.
#[tactic(auto, unfolding(crate::specs::Messages::sent_text))]
pub(crate) fn push_sent(text: &mut Vec<u8>, octets: &[u8]) -> Result<(), AllocError>
    ensures { OnOk result (text.new.items ≡ text.old.items ++ sent_text (reading octets.now)) }
{
    match decode(octets) {
        Ok(zcl) => push_message(text, &zcl),
        Err(reason) => {
            let (name, place) = named_in_message(reason);
            push_bad(text, name, place)
        }
    }
}

// The name of a reason why octets are no message, and its place in them.
pub(crate) fn named_in_message(reason: ClusterReason) -> (&'static str, u8)
    ensures name { result.0.now ≡ cluster_reason_name reason }
    ensures place { result.1 ≡ cluster_reason_place reason }
{
    match reason {
        ClusterReason::Short { place } => ("Short", place),
        ClusterReason::HeaderForm { place } => ("HeaderForm", place),
        ClusterReason::CommandUnknown { place } => ("CommandUnknown", place),
        ClusterReason::AppId { place } => ("AppId", place),
        ClusterReason::Trailing { place } => ("Trailing", place),
        ClusterReason::Mode { place } => ("Mode", place),
        ClusterReason::Long { place } => ("Long", place),
    }
}

/// Adds a message: its name, what its header says, and its fields.
#[tactic(auto, unfolding(crate::specs::Messages::message_text))]
pub(crate) fn push_message(text: &mut Vec<u8>, zcl: &Zcl) -> Result<(), AllocError>
    ensures { OnOk result (text.new.items ≡ text.old.items ++ message_text zcl.now) }
{
    push_text(text, name(&zcl.body))?;
    push_field(text, " seq=", &[zcl.sequence])?;
    push_text(text, if zcl.quiet { " quiet=1" } else { " quiet=0" })?;
    push_fields(text, &zcl.body)
}

fn name(body: &Cluster) -> &'static str
    ensures { result.now ≡ message_name body.now }
{
    match body {
        Cluster::Notification(_) => "notification",
        Cluster::CommissioningNotice(_) => "commissioning",
        Cluster::Pairing(_) => "pairing",
        Cluster::ProxyMode(_) => "mode",
        Cluster::Response(_) => "response",
    }
}

fn push_fields(text: &mut Vec<u8>, body: &Cluster) -> Result<(), AllocError>
    ensures { OnOk result (text.new.items ≡ text.old.items ++ fields_text body.now) }
{
    match body {
        Cluster::Notification(message) => push_notification(text, message),
        Cluster::CommissioningNotice(message) => push_notice(text, message),
        Cluster::Pairing(message) => push_pairing(text, message),
        Cluster::ProxyMode(message) => push_mode(text, message),
        Cluster::Response(message) => push_response(text, message),
    }
}

#[tactic(auto, unfolding(crate::specs::Messages::notification_text))]
fn push_notification(text: &mut Vec<u8>, message: &Notification) -> Result<(), AllocError>
    ensures { OnOk result (text.new.items ≡ text.old.items ++ notification_text message.now) }
{
    push_field(text, " options=", &message.options.to_be_bytes())?;
    push_src(text, Some(message.src))?;
    push_counter(text, Some(message.counter))?;
    push_inner(text, message.command, &message.payload)?;
    push_proxy(text, message.proxy)
}

#[tactic(auto, unfolding(crate::specs::Messages::notice_text))]
fn push_notice(text: &mut Vec<u8>, message: &CommissioningNotice) -> Result<(), AllocError>
    ensures { OnOk result (text.new.items ≡ text.old.items ++ notice_text message.now) }
{
    push_field(text, " options=", &message.options.to_be_bytes())?;
    push_src(text, Some(message.src))?;
    push_counter(text, Some(message.counter))?;
    push_inner(text, message.command, &message.payload)?;
    push_proxy(text, message.proxy)?;
    push_mic(text, &message.mic)
}

#[tactic(auto, unfolding(crate::specs::Messages::pairing_text))]
fn push_pairing(text: &mut Vec<u8>, message: &Pairing) -> Result<(), AllocError>
    ensures { OnOk result (text.new.items ≡ text.old.items ++ pairing_text message.now) }
{
    push_field(text, " options=", &message.options.to_be_bytes()[1..])?;
    push_src(text, Some(message.src))?;
    push_route(text, message)?;
    push_extras(text, message)
}

#[tactic(auto, unfolding(crate::specs::Messages::route_text))]
fn push_route(text: &mut Vec<u8>, message: &Pairing) -> Result<(), AllocError>
    ensures { OnOk result (text.new.items ≡ text.old.items ++ route_text message.now) }
{
    push_sink(text, message.sink)?;
    push_field16(text, " group=", message.group)?;
    push_field8(text, " device=", message.device)
}

#[tactic(auto, unfolding(crate::specs::Messages::extras_text))]
fn push_extras(text: &mut Vec<u8>, message: &Pairing) -> Result<(), AllocError>
    ensures { OnOk result (text.new.items ≡ text.old.items ++ extras_text message.now) }
{
    push_counter(text, message.counter)?;
    push_key(text, &message.key)?;
    push_field16(text, " alias=", message.alias)?;
    push_field8(text, " radius=", message.radius)
}

#[tactic(auto, unfolding(crate::specs::Messages::mode_text))]
fn push_mode(text: &mut Vec<u8>, message: &ProxyMode) -> Result<(), AllocError>
    ensures { OnOk result (text.new.items ≡ text.old.items ++ mode_text message.now) }
{
    push_field(text, " options=", &[message.options])?;
    push_window(text, message.window)?;
    push_field8(text, " channel=", message.channel)
}

#[tactic(auto, unfolding(crate::specs::Messages::response_text))]
fn push_response(text: &mut Vec<u8>, message: &Response) -> Result<(), AllocError>
    ensures { OnOk result (text.new.items ≡ text.old.items ++ response_text message.now) }
{
    push_field(text, " options=", &[message.options])?;
    push_field(text, " master=", &message.master.to_be_bytes())?;
    push_field(text, " channel=", &[message.channel])?;
    push_src(text, Some(message.src))?;
    push_inner(text, message.command, &message.payload)
}

// Adds a command and its payload.
#[tactic(auto, unfolding(crate::specs::Messages::inner_text))]
fn push_inner(text: &mut Vec<u8>, command: u8, payload: &Option<Octets>) -> Result<(), AllocError>
    ensures { OnOk result (text.new.items ≡ text.old.items ++ inner_text command payload.now) }
{
    push_field(text, " command=", &[command])?;
    push_text(text, " payload=")?;
    push_string(text, payload)
}

// Adds an octet string.
fn push_string(text: &mut Vec<u8>, string: &Option<Octets>) -> Result<(), AllocError>
    ensures { OnOk result (text.new.items ≡ text.old.items ++ string_digits string.now) }
{
    match string {
        None => push_text(text, "none"),
        Some(octets) => push_octets(text, octets.as_slice()),
    }
}

// Adds octets, none of them as `-`.
fn push_octets(text: &mut Vec<u8>, octets: &[u8]) -> Result<(), AllocError>
    ensures { OnOk result (text.new.items ≡ text.old.items ++ string_digits (Some octets.now)) }
{
    match octets {
        [] => push_text(text, "-"),
        octets => push_hex(text, octets),
    }
}

#[tactic(auto, unfolding(crate::specs::Messages::proxy_text))]
fn push_proxy(text: &mut Vec<u8>, proxy: Option<(u16, u8)>) -> Result<(), AllocError>
    ensures { OnOk result (text.new.items ≡ text.old.items ++ proxy_text proxy) }
{
    match proxy {
        Some((address, link)) => {
            push_field(text, " proxy=", &address.to_be_bytes())?;
            push_field(text, " link=", &[link])
        }
        None => push_text(text, " proxy=- link=-"),
    }
}

#[tactic(auto, unfolding(crate::specs::Messages::sink_text))]
fn push_sink(text: &mut Vec<u8>, sink: Option<(u64, u16)>) -> Result<(), AllocError>
    ensures { OnOk result (text.new.items ≡ text.old.items ++ sink_text sink) }
{
    match sink {
        Some((ieee, address)) => {
            push_field(text, " sink=", &ieee.to_be_bytes())?;
            push_field(text, " address=", &address.to_be_bytes())
        }
        None => push_text(text, " sink=- address=-"),
    }
}

#[tactic(auto, unfolding(crate::specs::Messages::key_text))]
fn push_key(text: &mut Vec<u8>, key: &Option<Key>) -> Result<(), AllocError>
    ensures { OnOk result (text.new.items ≡ text.old.items ++ key_text key.now) }
{
    match key {
        Some(key) => push_field(text, " key=", &key.0),
        None => push_text(text, " key=-"),
    }
}

#[tactic(auto, unfolding(crate::specs::Messages::window_text))]
fn push_window(text: &mut Vec<u8>, window: Option<u16>) -> Result<(), AllocError>
    ensures { OnOk result (text.new.items ≡ text.old.items ++ window_text window) }
{
    push_text(text, " window=")?;
    match window {
        Some(window) => push_number(text, u64::from(window)),
        None => push_text(text, "-"),
    }
}

// Adds a field of one octet that may be absent.
#[tactic(auto, unfolding(crate::specs::Messages::field8))]
fn push_field8(text: &mut Vec<u8>, label: &str, field: Option<u8>) -> Result<(), AllocError>
    ensures { OnOk result (text.new.items ≡ text.old.items ++ field8 label.now field) }
{
    push_text(text, label)?;
    match field {
        Some(octet) => push_hex(text, &[octet]),
        None => push_text(text, "-"),
    }
}

// The same of two octets.
#[tactic(auto, unfolding(crate::specs::Messages::field16))]
fn push_field16(text: &mut Vec<u8>, label: &str, field: Option<u16>) -> Result<(), AllocError>
    ensures { OnOk result (text.new.items ≡ text.old.items ++ field16 label.now field) }
{
    push_text(text, label)?;
    match field {
        Some(number) => push_hex(text, &number.to_be_bytes()),
        None => push_text(text, "-"),
    }
}
