//! The rules of arguments, and the values that they allow.
ghost use Rattle.std.specs.Prelude.{◌≡◌};
ghost use Rattle.std.specs.List.{list_any};
ghost use Rattle.std.specs.Option.{option_copied};
ghost use Rattle.cx_library.specs.Arguments.{allows, holds, is_any, is_number, is_past};
ghost use Rattle.cx_library.specs.Arguments.{is_variadic, last_rule, rule_of, valid, variadic_rule};

use crate::described::{ArgNr, ArgRule, Bounds, Described};

// Whether a rule is for the argument with this number.
fn is_number(rule: &ArgRule, number: u32) -> bool
    ensures { result ≡ is_number number rule.now.nr }
{
    match rule.nr {
        ArgNr::Number(n) => u32::from(n) == number,
        _ => false,
    }
}

// Whether a rule is for an argument behind the one with this number.
fn is_past(rule: &ArgRule, number: u32) -> bool
    ensures { result ≡ is_past number rule.now.nr }
{
    match rule.nr {
        ArgNr::Number(n) => u32::from(n) > number,
        _ => false,
    }
}

fn is_variadic(rule: &ArgRule) -> bool
    ensures { result ≡ is_variadic rule.now.nr }
{
    matches!(rule.nr, ArgNr::Variadic)
}

fn is_any(rule: &ArgRule) -> bool
    ensures { result ≡ is_any rule.now.nr }
{
    matches!(rule.nr, ArgNr::Any)
}

// The last rule with this number.
fn last_numbered(rules: &[ArgRule], number: u32) -> Option<&ArgRule>
    ensures { option_copied result ≡ last_rule (is_number number) rules.now }
{
    rules.iter().rev().find(|rule| is_number(rule, number))
}

// Whether a rule is for an argument behind the one with this number.
fn has_past(rules: &[ArgRule], number: u32) -> bool
    ensures { result ≡ list_any (λ rule. is_past number rule.nr) rules.now }
{
    rules.iter().any(|rule| is_past(rule, number))
}

fn last_variadic(rules: &[ArgRule]) -> Option<&ArgRule>
    ensures { option_copied result ≡ last_rule is_variadic rules.now }
{
    rules.iter().rev().find(|rule| is_variadic(rule))
}

fn last_any(rules: &[ArgRule]) -> Option<&ArgRule>
    ensures { option_copied result ≡ last_rule is_any rules.now }
{
    rules.iter().rev().find(|rule| is_any(rule))
}

// The rule `variadic`, where no rule is for an argument behind the one with this number.
fn variadic(rules: &[ArgRule], number: u32) -> Option<&ArgRule>
    ensures { option_copied result ≡ variadic_rule number rules.now }
{
    if has_past(rules, number) {
        None
    } else {
        last_variadic(rules)
    }
}

// The rule of the argument with this number.
#[tactic(auto, unfolding(crate::specs::Arguments::rule_of))]
fn rule_of(rules: &[ArgRule], number: u32) -> Option<&ArgRule>
    ensures { option_copied result ≡ rule_of rules.now number }
{
    if let Some(rule) = last_numbered(rules, number) {
        return Some(rule);
    }
    if let Some(rule) = variadic(rules, number) {
        return Some(rule);
    }
    last_any(rules)
}

impl Bounds {
    /// Whether the range holds a value.
    pub fn holds(&self, value: i128) -> bool
        ensures { result ≡ holds value self.now }
    {
        let is_from = match self.least {
            None => true,
            Some(least) => least <= value,
        };
        let is_to = match self.greatest {
            None => true,
            Some(greatest) => value <= greatest,
        };
        is_from && is_to
    }
}

// Whether one of these ranges holds a value.
fn is_in(ranges: &[Bounds], value: i128) -> bool
    ensures { result ≡ list_any (holds value) ranges.now }
{
    ranges.iter().any(|range| range.holds(value))
}

// Whether a rule allows a value.
fn allows(rule: &ArgRule, value: i128) -> bool
    ensures { result ≡ allows value rule.now }
{
    let ranges = rule.ranges.as_slice();
    match ranges {
        [] => true,
        _ => is_in(ranges, value),
    }
}

/// Whether a function may be given this value as the argument with this number, counted from 1: the
/// argument has no rule, or a rule without ranges, or one of its ranges holds the value (`valid`).
/// It takes no memory.
#[tactic(auto, unfolding(crate::specs::Arguments::valid))]
pub fn valid(described: &Described, nr: u32, value: i128) -> bool
    ensures { result ≡ valid described.now nr value }
{
    match rule_of(described.args.as_slice(), nr) {
        None => true,
        Some(rule) => allows(rule, value),
    }
}
