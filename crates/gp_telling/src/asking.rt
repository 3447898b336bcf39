//! What the lines of a script, and of a sink's life, ask of a sink, as its calls take it.

ghost use Rattle.std.specs.Prelude.{◌≡◌};
ghost use Rattle.gp_world.specs.Sinks as sinks;
ghost use Rattle.gp_world.specs.Step as steps;

use gp_base::{Key, KeyKind, Level, Mode, Src};
use gp_commission::Offer;
use gp_script::{RuleForm, SinkMode};
use gp_sink::Config;
use gp_translate::{Rule, Target};

/// The link key where a line names none.
const DEFAULT_LINK: Key = Key(*b"ZigBeeAlliance09");

/// What a line pairs.
pub fn offer_of(
    source: Src,
    key: Key,
    kind: KeyKind,
    level: Level,
    device: u8,
    counter: u32,
) -> Offer
    ensures { result ≡ record { src = source; key = key; kind = kind; level = level; device = device; counter = counter } }
{
    Offer {
        src: source,
        key,
        kind,
        level,
        device,
        counter,
    }
}

/// The rule of a line.
pub fn rule_of(source: Option<Src>, command: u8, endpoint: u8, form: &RuleForm) -> Rule
    ensures { result ≡ sinks.rule_of source command endpoint form.now }
{
    Rule {
        source,
        command,
        endpoint,
        target: target_of(form),
    }
}

/// How a line sets a sink up.
pub fn config_of(
    address: u16,
    ieee: u64,
    mode: SinkMode,
    channel: u8,
    link: &Option<Key>,
    shared: &Key,
) -> Config
    ensures { result ≡ steps.config_of address ieee mode channel link.now shared.now }
{
    let (mode, group) = match mode {
        SinkMode::Derived => (Mode::Derived, 0),
        SinkMode::Unicast => (Mode::Unicast, 0),
        SinkMode::Group(group) => (Mode::Commissioned, group),
    };
    Config {
        address,
        ieee,
        mode,
        group,
        channel,
        link: match link {
            Some(link) => *link,
            None => DEFAULT_LINK,
        },
        shared: *shared,
    }
}

// What a rule of a line makes of a command.
fn target_of(form: &RuleForm) -> Target
    ensures { result ≡ sinks.target_of form.now }
{
    match form {
        RuleForm::Table => Target::Parsed,
        RuleForm::Copy { cluster, command } => Target::Copy {
            cluster: *cluster,
            zcl: *command,
        },
        RuleForm::Fixed {
            cluster,
            command,
            payload,
        } => Target::Fixed {
            cluster: *cluster,
            zcl: *command,
            payload: payload.copy(),
        },
    }
}
