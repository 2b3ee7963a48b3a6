//! A configuration from its JSON value, field by field.

ghost use Rattle.std.specs.Prelude.{◌≡◌};
ghost use Rattle.serde_json.specs.View.{view};
ghost use Rattle.taint_config.specs.Reading.{Gives, parts_read};

use crate::ConfigError;
use crate::configuration::Parts;
use crate::features::features;
use crate::fields::{field, object};
use crate::kinds::kinds;
use crate::rules::rules;
use serde_json::Value;
use std::alloc::Global;

/// The parts of a configuration, or its first fault.
#[tactic(auto, unfolding(crate::specs::Reading::parts_read))]
pub fn parts(alloc: Global, value: &Value) -> Result<Parts, ConfigError>
    ensures { Gives
        (λ p. record { sources = p.sources.keys; sinks = p.sinks.keys; rules = p.rules.items; features = p.features.items })
        result
        (parts_read (view value.now)) }
{
    object(value)?;
    let sources = kinds(alloc, field(value, "sources")?)?;
    let sinks = kinds(alloc, field(value, "sinks")?)?;
    let rules = rules(alloc, &sources, &sinks, field(value, "rules")?)?;
    let features = features(alloc, value)?;
    if sources.len() + sinks.len() > 255 {
        return Err(ConfigError::TooManyKinds);
    }
    Ok(Parts {
        sources,
        sinks,
        rules,
        features,
    })
}
