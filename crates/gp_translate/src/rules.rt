//! The rules of a sink.

ghost use Rattle.std.specs.Prelude.{◌≡◌, ◌≤◌, [], ◌∷◌, ◌++◌, length, map, None, Some, IfErr, OnOk, OnErr};
ghost use Rattle.std.specs.List.{list_any};
ghost use Rattle.gp_translate.specs.Rules as words;
ghost use Rattle.gp_translate.specs.Rules.{AreRules, standard, standard_rule};

use crate::meanings::IDENTIFIERS;
use crate::rule::{Rule, RuleReason};
use arrayvec::ArrayVec;
use gp_base::Src;
use std::marker::Model;

/// The most rules that stand.
const CAPACITY: usize = 64;

/// The most rules that concern one command of one device.
const MOST: usize = 4;

/// The rules of a sink, in the order in which they were added.
#[derive(Debug, Drop)]
pub struct Rules {
    items: ArrayVec<Rule, CAPACITY>,
}

impl Model for Rules {
    ghost use Rattle.std.specs.Prelude.{List};
    ghost use Rattle.gp_translate.specs.declared.rule.Rule.{Rule};

    ghost Value = { List Rule };

    ghost use Rattle.gp_translate.specs.Rules.{AreRules};

    ghost view = { λ r. r.items.items };

    ghost invariant = { λ r. AreRules r.items.items };
}

impl Rules {
    /// The rules that a sink begins with: for each command that has a meaning in the terms of the ZCL one rule for every
    /// device, at endpoint 1. There are 32.
    pub fn standard() -> Rules
        ensures { result ≡ standard }
    {
        Rules {
            items: standard_rules(&IDENTIFIERS),
        }
    }

    /// The same rules once more.
    pub fn copy(&self) -> Rules
        ensures { result ≡ self.now }
    {
        Rules {
            items: copied(self.items.as_slice()),
        }
    }

    /// Adds a rule at the end. Tested are, in this order: the rule's form (`Form`), that fewer than 64 rules stand
    /// (`Full`), and that not five rules, the new one among them, would have its command, and each no device or one and the
    /// same (`Many`).
    pub fn add(&mut self, rule: Rule) -> Result<(), RuleReason>
        // A refusal has the first reason that holds, and changes nothing;
        ensures refused { IfErr result (λ reason. words.refusal self.old rule ≡ Some reason) }
        ensures same { OnErr result (self.new ≡ self.old) }
        // without a reason the rule stands at the end.
        ensures fine { OnOk result (words.refusal self.old rule ≡ None) }
        ensures added { OnOk result (self.new ≡ self.old ++ rule ∷ []) }
    {
        if let Some(reason) = refusal(self.items.as_slice(), &rule) {
            return Err(reason);
        }
        self.items.push(rule);
        Ok(())
    }

    /// The rules, in their order.
    pub(crate) fn as_slice(&self) -> &[Rule]
        ensures value { result.now ≡ self.now }
        ensures rules { AreRules self.now }
    {
        self.items.as_slice()
    }
}

/// The rules that a sink begins with for these commands.
fn standard_rules(commands: &[u8]) -> ArrayVec<Rule, CAPACITY>
    requires { length commands.now ≤ 64 }
    ensures { result.items ≡ map standard_rule commands.now }
{
    let mut rules = ArrayVec::new();
    for command in commands {
        rules.push(Rule::standard(*command));
    }
    rules
}

/// Another list of the same rules.
fn copied(rules: &[Rule]) -> ArrayVec<Rule, CAPACITY>
    requires { length rules.now ≤ 64 }
    ensures { result.items ≡ rules.now }
{
    let mut copies = ArrayVec::new();
    for rule in rules {
        copies.push(rule.copy());
    }
    copies
}

/// How many rules are about a command, for a device or for all of them.
fn how_many(rules: &[Rule], device: Option<Src>, command: u8) -> usize
    ensures { result ≡ words.how_many device command rules.now }
{
    rules
        .iter()
        .filter(|rule| rule.concerns(device, command))
        .count()
}

/// Whether as many rules as may are about a command, for a device or for all of them.
#[tactic(auto, unfolding(crate::specs::Rules::is_full))]
fn is_full(rules: &[Rule], device: Option<Src>, command: u8) -> bool
    ensures { result ≡ words.is_full device command rules.now }
{
    MOST <= how_many(rules, device, command)
}

/// Whether as many rules as may are about a command, for a device that some rule names or for all of them.
fn is_full_for_some(rules: &[Rule], command: u8) -> bool
    ensures { result ≡ list_any (λ other. words.is_full other.source command rules.now) rules.now }
{
    rules
        .iter()
        .any(|other| is_full(rules, other.source, command))
}

/// Whether with one more rule too many would be about its command, for its device, or where it names none for some device.
fn is_crowded(rules: &[Rule], rule: &Rule) -> bool
    ensures { result ≡ words.is_crowded rules.now rule.now rule.now.source }
{
    match rule.source {
        Some(device) => is_full(rules, Some(device), rule.command),
        None => is_full_for_some(rules, rule.command),
    }
}

/// Why a rule isn't added.
fn refusal(rules: &[Rule], rule: &Rule) -> Option<RuleReason>
    ensures { result ≡ words.refusal rules.now rule.now }
{
    if !rule.has_form() {
        return Some(RuleReason::Form);
    }
    if CAPACITY <= rules.len() {
        return Some(RuleReason::Full);
    }
    if is_crowded(rules, rule) {
        return Some(RuleReason::Many);
    }
    None
}
