//! The secured frame that a Commissioning Notification reports.

ghost use Rattle.std.specs.Prelude.{◌≡◌, ◌≤◌, ◌∷◌, length, IfSome};
ghost use Rattle.gp_frames.specs.Frame.{IsCarried};
ghost use Rattle.gp_security.specs.Notice as words;
ghost use Rattle.gp_security.specs.Notice.{IsReceived, rebuilt};

use gp_base::Octets;
use gp_base::field::add;
use gp_cluster::CommissioningNotice;
use gp_cluster::options::NoticeOptions;
use gp_frames::{Ext, Gpdf};

/// The secured frame that a Commissioning Notification reports, as it was received where security processing failed
/// (Zigbee PRO Green Power, A.3.3.4): control 8C, level and RxAfterTx of the options, from the device, the SecurityKey
/// bit by the key type, and the command with its payload as its body. `None` comes exactly where bit 9 of the options is
/// clear, the level is below 2, or the payload has more than 103 octets. It takes no memory.
pub fn from_notice(notice: &CommissioningNotice) -> Option<Gpdf>
    requires { IsReceived notice.now }
    ensures value { result ≡ rebuilt notice.now }
    ensures carried { IfSome result (λ frame. IsCarried frame) }
{
    rebuild(notice)
}

#[tactic(auto, unfolding(crate::specs::Notice::rebuilt))]
fn rebuild(notice: &CommissioningNotice) -> Option<Gpdf>
    ensures { result ≡ rebuilt notice.now }
{
    let options = NoticeOptions(notice.options);
    if !has_frame(notice) {
        return None;
    }
    let key_type = options.key_type();
    Some(Gpdf {
        maintenance: false,
        auto: false,
        ext: Some(Ext {
            level: options.level(),
            individual: key_type == 4 || key_type == 7,
            rx_after: options.rx_after(),
            to_device: false,
        }),
        src: Some(notice.src),
        counter: Some(notice.counter),
        body: body_of(notice),
        mic: notice.mic,
    })
}

/// Whether a notification reports a secured frame that an MPDU can hold.
fn has_frame(notice: &CommissioningNotice) -> bool
    ensures { result ≡ words.has_frame notice.now }
{
    let options = NoticeOptions(notice.options);
    options.has_failed() && options.level() >= 2 && payload_of(notice).len() <= 103
}

/// The payload, where an unspecified one is empty.
fn payload_of(notice: &CommissioningNotice) -> &[u8]
    ensures { result.now ≡ words.payload_of notice.now }
{
    match &notice.payload {
        Some(octets) => octets.as_slice(),
        None => &[],
    }
}

/// The command and its payload.
fn body_of(notice: &CommissioningNotice) -> Octets
    requires { length (words.payload_of notice.now) ≤ 103 }
    ensures { result ≡ notice.now.command ∷ words.payload_of notice.now }
{
    let mut body = Octets::new();
    body.push(notice.command);
    match add(&mut body, payload_of(notice)) {
        Ok(()) => body,
        Err(_) => unreachable!(),
    }
}
