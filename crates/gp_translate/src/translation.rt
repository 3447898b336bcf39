//! A command is translated.

ghost use Rattle.std.specs.Prelude.{◌≡◌, ◌≤◌, length, Some};
ghost use Rattle.gp_commands.specs.Command.{IsSound};
ghost use Rattle.gp_translate.specs.Acts as words;
ghost use Rattle.gp_translate.specs.Rules as of_rules;

use crate::act::{Act, Acts};
use crate::meanings::{meaning, of_cluster};
use crate::rule::{Rule, Target};
use crate::rules::Rules;
use gp_base::Src;
use gp_commands::{GpdCommand, write};

/// The acts of a command of a device, which has to be sound: one for each rule that has its identifier and no source or
/// this one, in the order of the rules.
#[tactic(auto, using(crate::proofs::Meant::one_each))]
pub fn translate(rules: &Rules, source: Src, command: &GpdCommand) -> Acts
    requires { IsSound command.now }
    ensures acts { result ≡ words.acts_of rules.now source command.now }
    // Each rule that concerns the command gives one.
    ensures each { length result ≡ of_rules.how_many (Some source) (words.identifier command.now) rules.now }
{
    acts_among(rules.as_slice(), source, command)
}

/// The acts that rules give, of which at most four concern the command.
#[tactic(auto, unfolding(crate::specs::Acts::acts_of))]
fn acts_among(rules: &[Rule], source: Src, command: &GpdCommand) -> Acts
    requires sound { IsSound command.now }
    requires few { of_rules.how_many (Some source) (words.identifier command.now) rules.now ≤ 4 }
    ensures { result ≡ words.acts_of rules.now source command.now }
{
    let id = identifier(command);
    let mut acts = Acts::none();
    for rule in rules {
        if rule.concerns(Some(source), id) {
            if let Some(act) = made(command, rule.endpoint, &rule.target) {
                acts.push(act);
            }
        }
    }
    acts
}

/// The identifier of a command.
fn identifier(command: &GpdCommand) -> u8
    ensures { result ≡ words.identifier command.now }
{
    match command {
        GpdCommand::Plain { id, .. } => *id,
        GpdCommand::Move { id, .. } => *id,
        GpdCommand::Step { id, .. } => *id,
        GpdCommand::Vector { id, .. } => *id,
        GpdCommand::Report { .. } => 0xA0,
        GpdCommand::Commissioning(_) => 0xE0,
        GpdCommand::Reply(_) => 0xF0,
        GpdCommand::ChannelRequest { .. } => 0xE3,
        GpdCommand::ChannelConfig { .. } => 0xF3,
        GpdCommand::Other { id, .. } => *id,
    }
}

/// What a target makes of a command, at an endpoint.
fn made(command: &GpdCommand, endpoint: u8, target: &Target) -> Option<Act>
    requires { IsSound command.now }
    ensures { result ≡ words.made command.now endpoint target.now }
{
    match target {
        Target::Parsed => meaning(endpoint, command),
        Target::Copy { cluster, zcl } => Some(copied(command, endpoint, *cluster, *zcl)),
        Target::Fixed {
            cluster,
            zcl,
            payload,
        } => Some(of_cluster(endpoint, *cluster, *zcl, payload.as_slice())),
    }
}

/// A command of a cluster, with the octets after the identifier of a device command.
#[tactic(auto, using(crate::proofs::Spelled::length_spelling))]
fn copied(command: &GpdCommand, endpoint: u8, cluster: u16, zcl: u8) -> Act
    requires { IsSound command.now }
    ensures { words.made command.now endpoint (Target.Copy cluster zcl) ≡ Some result }
{
    let octets = write(command);
    of_cluster(endpoint, cluster, zcl, &octets.as_slice()[1..])
}
