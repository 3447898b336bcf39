//! Notification and Commissioning Notification.

ghost use Rattle.std.specs.Prelude.{◌≡◌, ◌≤◌, length, OnOk};
ghost use Rattle.gp_base.specs.Field.{Adds};
ghost use Rattle.gp_base.specs.Table.{answer};
ghost use Rattle.gp_cluster.specs.Notification as words;
ghost use Rattle.gp_cluster.specs.Notification.{notification_reason, notification_at, HasNotificationWidths, notice_reason, notice_at, HasNoticeWidths};

use crate::field::surplus;
use crate::message::{ClusterReason, CommissioningNotice, Notification, short};
use crate::options::{NoticeOptions, NotificationOptions, application_id};
use crate::tunnel::{add_tunnel, take_tunnel};
use gp_base::field::{NoRoom, add_mic_if, add_number16, mic_if, number16};
use gp_base::{Octets, Reader};

/// Reads a Notification after its header.
pub(crate) fn read_notification(
    octets: &[u8],
    reader: &mut Reader,
) -> Result<Notification, ClusterReason>
    requires same { reader.old.octets ≡ octets.now }
    requires place { reader.old.place ≡ 3 }
    requires room { length octets.now ≤ 127 }
    ensures { result ≡ answer (notification_reason octets.now) (notification_at octets.now) }
{
    let Ok(options) = number16(reader) else {
        return Err(short(octets));
    };
    if application_id(options as u32) != 0 {
        return Err(ClusterReason::AppId { place: 3 });
    }
    let Ok(tunnel) = take_tunnel(reader, NotificationOptions(options).has_proxy()) else {
        return Err(short(octets));
    };
    if let Some(reason) = surplus(octets, reader) {
        return Err(reason);
    }
    Ok(Notification {
        options,
        src: tunnel.src,
        counter: tunnel.counter,
        command: tunnel.command,
        payload: tunnel.payload,
        proxy: tunnel.proxy,
    })
}

/// Reads a Commissioning Notification after its header.
pub(crate) fn read_notice(
    octets: &[u8],
    reader: &mut Reader,
) -> Result<CommissioningNotice, ClusterReason>
    requires same { reader.old.octets ≡ octets.now }
    requires place { reader.old.place ≡ 3 }
    requires room { length octets.now ≤ 127 }
    ensures { result ≡ answer (notice_reason octets.now) (notice_at octets.now) }
{
    let Ok(options) = number16(reader) else {
        return Err(short(octets));
    };
    if application_id(options as u32) != 0 {
        return Err(ClusterReason::AppId { place: 3 });
    }
    let Ok(tunnel) = take_tunnel(reader, NoticeOptions(options).has_proxy()) else {
        return Err(short(octets));
    };
    let Ok(mic) = mic_if(reader, NoticeOptions(options).has_failed()) else {
        return Err(short(octets));
    };
    if let Some(reason) = surplus(octets, reader) {
        return Err(reason);
    }
    Ok(CommissioningNotice {
        options,
        src: tunnel.src,
        counter: tunnel.counter,
        command: tunnel.command,
        payload: tunnel.payload,
        proxy: tunnel.proxy,
        mic,
    })
}

/// Whether the ApplicationID is 0, and proxy info is there where its bit says so.
pub(crate) fn notification_agrees(message: &Notification) -> bool
    ensures { result ≡ words.notification_agrees message.now }
{
    application_id(message.options as u32) == 0
        && message.proxy.is_some() == NotificationOptions(message.options).has_proxy()
}

/// Whether the ApplicationID is 0, and proxy info and MIC are there where their bits say so.
pub(crate) fn notice_agrees(message: &CommissioningNotice) -> bool
    ensures { result ≡ words.notice_agrees message.now }
{
    application_id(message.options as u32) == 0
        && message.proxy.is_some() == NoticeOptions(message.options).has_proxy()
        && message.mic.is_some() == NoticeOptions(message.options).has_failed()
}

/// Adds a Notification without its header.
#[tactic(auto, unfolding(crate::specs::Notification::notification))]
pub(crate) fn add_notification(out: &mut Octets, message: &Notification) -> Result<(), NoRoom>
    ensures added { Adds (words.notification message.now) out.old out.new result }
    ensures widths { OnOk result (HasNotificationWidths message.now) }
{
    add_number16(out, message.options)?;
    add_tunnel(
        out,
        message.src,
        message.counter,
        message.command,
        &message.payload,
        message.proxy,
    )
}

/// Adds a Commissioning Notification without its header.
#[tactic(auto, unfolding(crate::specs::Notification::notice))]
pub(crate) fn add_notice(out: &mut Octets, message: &CommissioningNotice) -> Result<(), NoRoom>
    ensures added { Adds (words.notice message.now) out.old out.new result }
    ensures widths { OnOk result (HasNoticeWidths message.now) }
{
    add_number16(out, message.options)?;
    add_tunnel(
        out,
        message.src,
        message.counter,
        message.command,
        &message.payload,
        message.proxy,
    )?;
    add_mic_if(out, message.mic)
}
