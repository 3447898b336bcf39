//! What a line asks of a sink, and what a node replies.
ghost use Rattle.std.specs.Prelude.{◌≡◌, ◌+◌, ◌-◌, ◌^◌, ℕ};
ghost use Rattle.gp_power.specs.Comes.{Comes};
ghost use Rattle.gp_power.specs.Few.{AreFew};
ghost use Rattle.gp_net.specs.Replies.{asked, says, puts, IsReply, IsRequest, reply_of, announced};

use gp_base::Src;
use gp_cluster::Sent;
use gp_commission::Offer;
use gp_power::{Answer, Powered};
use gp_script::{Cause, Dropped, Report};
use gp_sink::Verdict;
use gp_translate::Rule;

/// What a line asks of a sink.
#[derive(Drop)]
pub enum Request {
    /// To pair a device.
    Pair(Offer),
    /// To tell of a pairing again.
    Announce(Src),
    /// To add a rule.
    Rule(Rule),
    /// To arm a cut of its power.
    Cut { commit: u32, calls: u16, way: u8 },
    /// To arm a fault of its disk.
    Fault { commit: u32, calls: u16 },
    /// To be switched off.
    Off,
}

/// How a sink is switched on.
#[derive(Clone, Copy)]
pub enum Switch {
    /// To run.
    On,
    /// With a cut once so many device calls of the recovery have returned; the disk crashes in this way.
    Flicker { calls: u16, way: u8 },
}

/// What a node replies.
#[derive(Drop)]
pub enum Reply {
    /// A verdict of a sink.
    Verdict(Verdict),
    /// A message that it sends.
    Put(Sent),
    /// A report alone.
    Report(Report),
}

/// The reply of an answer of a sink.
pub fn replied(answer: Answer) -> Reply
    ensures { result ≡ reply_of answer }
{
    match answer {
        Answer::Verdict(verdict) => Reply::Verdict(verdict),
        Answer::Other(report) => Reply::Report(report),
    }
}

// The reply of an announcement.
fn told(answer: Result<Option<Sent>, Report>) -> Reply
    ensures { result ≡ announced answer }
{
    match answer {
        Ok(Some(sent)) => Reply::Put(sent),
        Ok(None) => Reply::Report(Report::Drop {
            cause: Dropped::Plain(Cause::Unknown),
        }),
        Err(report) => Reply::Report(report),
    }
}

/// What a sink replies to a request, and the bit that this took.
pub fn reply_to(powered: &mut Powered, request: Request) -> (Reply, Option<bool>)
    requires request { IsRequest request }
    requires room { AreFew (2 ^ 64 - 2) powered.old }
    ensures comes { Comes (asked request) (says result.0) (puts result.0) powered.old powered.new result.1 }
    ensures few { (most : ℕ) → AreFew most powered.old → AreFew (most + 2) powered.new }
    ensures reply { IsReply result.0 }
{
    match request {
        Request::Pair(offer) => {
            let (answer, bit) = powered.pair(&offer);
            (replied(answer), bit)
        }
        Request::Announce(source) => (told(powered.announce(source)), None),
        Request::Rule(rule) => {
            let answer = powered.add_rule(rule);
            (Reply::Report(Report::Rule { answer }), None)
        }
        Request::Cut { commit, calls, way } => {
            powered.arm_cut(commit, calls, way);
            (Reply::Report(Report::Armed), None)
        }
        Request::Fault { commit, calls } => {
            powered.arm_fault(commit, calls);
            (Reply::Report(Report::Armed), None)
        }
        Request::Off => {
            let (report, bit) = powered.switch_off();
            (Reply::Report(report), bit)
        }
    }
}
