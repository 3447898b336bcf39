//! Reasons in the words of a report.
ghost use Rattle.std.specs.Prelude.{◌≡◌};
ghost use Rattle.gp_ideal.specs.Faults.{malformed};
ghost use Rattle.gp_sink.specs.Verdict.{refusal, loss};

use gp_commission::OfferReason;
use gp_frames::FrameReason;
use gp_script::{Cause as Loss, Dropped, FrameFault, Refusal};
use gp_sink::Cause;

/// Why a device isn't paired.
pub fn refusal_of(reason: OfferReason) -> Refusal
    ensures { result ≡ refusal reason }
{
    match reason {
        OfferReason::NotListening => Refusal::NotListening,
        OfferReason::BadSource => Refusal::BadSource,
        OfferReason::LevelLow => Refusal::LevelLow,
        OfferReason::NoKey => Refusal::NoKey,
        OfferReason::KeyTag => Refusal::KeyTag,
        OfferReason::CounterEnd => Refusal::CounterEnd,
    }
}

/// Why octets are no frame.
fn fault_of(reason: FrameReason) -> Dropped
    ensures { result ≡ malformed reason }
{
    let (reason, place) = match reason {
        FrameReason::TooLong => (FrameFault::TooLong, 125),
        FrameReason::Short { place } => (FrameFault::Short, place),
        FrameReason::MacForm => (FrameFault::MacForm, 0),
        FrameReason::FrameKind => (FrameFault::FrameKind, 7),
        FrameReason::Version => (FrameFault::Version, 7),
        FrameReason::AppId => (FrameFault::AppId, 8),
        FrameReason::LevelOne => (FrameFault::LevelOne, 8),
        FrameReason::SecuredMaintenance => (FrameFault::SecuredMaintenance, 8),
        FrameReason::NoCommand { place } => (FrameFault::NoCommand, place),
    };
    Dropped::Malformed { reason, place }
}

/// Why a frame is dropped.
pub fn cause_of(cause: Cause) -> Dropped
    ensures { result ≡ loss cause }
{
    match cause {
        Cause::Malformed(reason) => fault_of(reason),
        Cause::ToDevice => Dropped::Plain(Loss::ToDevice),
        Cause::Unsecured => Dropped::Plain(Loss::Unsecured),
        Cause::Unknown => Dropped::Plain(Loss::Unknown),
        Cause::KeyBit => Dropped::Plain(Loss::KeyBit),
        Cause::LevelOther => Dropped::Plain(Loss::LevelOther),
        Cause::BadTag => Dropped::Plain(Loss::BadTag),
        Cause::Stale { floor } => Dropped::Stale { floor },
    }
}
