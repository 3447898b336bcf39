//! What a sink answers to an event.
ghost use Rattle.std.specs.Prelude.{IfSome};
ghost use Rattle.gp_sink.specs.Sink.{GivesMessage, IsMessage};
ghost use Rattle.gp_power.specs.Said.{Puts};

use gp_cluster::Sent;
use gp_script::Report;
use gp_sink::Verdict;

/// What a sink answers to an event in which a running one takes part.
#[derive(Drop)]
pub enum Answer {
    /// It runs, and gives its verdict.
    Verdict(Verdict),
    /// It gives none: its power is cut (`Cut`) or its disk fails (`Halted`) in this event, or it was halted before (`Halted`), or
    /// has no power (`Dark`).
    Other(Report),
}

/// The message of a verdict, where it has one.
pub fn message_of(verdict: Verdict) -> Option<Sent>
    requires { GivesMessage verdict }
    ensures puts { Puts verdict result }
    ensures message { IfSome result IsMessage }
{
    match verdict {
        Verdict::Paired { message, .. } => Some(message),
        Verdict::Unpaired { message, .. } => Some(message),
        _ => None,
    }
}
