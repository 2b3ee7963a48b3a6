//! The configuration of the cut form.

ghost use Rattle.std.specs.Prelude.{◌≡◌};
ghost use Rattle.cut_form.specs.Configuration.{are_rules, is_config, is_only, is_only_number, is_rule};

use rv_names::{Name, Text};
use taint_config::{Config, Rule};

fn is_only_name(names: &[Name], text: &str) -> bool
    ensures { result ≡ is_only text.now names.now }
{
    match names {
        [name] => name.as_str() == text,
        _ => false,
    }
}

fn is_only_number(numbers: &[u8], number: u8) -> bool
    ensures { result ≡ is_only_number number numbers.now }
{
    match numbers {
        [first] => *first == number,
        _ => false,
    }
}

fn is_rule(rule: &Rule) -> bool
    ensures { result ≡ is_rule rule.now }
{
    rule.name().as_str() == "Possible RCE"
        && rule.code() == 5001
        && is_only_number(rule.sources(), 0)
        && is_only_number(rule.sinks(), 1)
        && rule.message().as_str() == "Data from {$sources} may reach {$sinks}"
}

fn are_rules(rules: &[Rule]) -> bool
    ensures { result ≡ are_rules rules.now }
{
    match rules {
        [rule] => is_rule(rule),
        _ => false,
    }
}

/// Whether the configuration is the one of the cut form.
#[tactic(auto, unfolding(crate::specs::Configuration::is_config))]
pub fn is_config(config: &Config) -> bool
    ensures { result ≡ is_config config.now }
{
    is_only_name(config.sources(), "UserControlled")
        && is_only_name(config.sinks(), "RemoteCodeExecution")
        && config.features().is_empty()
        && are_rules(config.rules())
        && config.notes().is_empty()
}
