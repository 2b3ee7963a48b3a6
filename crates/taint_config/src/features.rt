//! The features.

ghost use Rattle.std.specs.Prelude.{codes};
ghost use Rattle.serde_json.specs.View.{view};
ghost use Rattle.serde_json.specs.Find.{get};
ghost use Rattle.taint_config.specs.Reading.{Gives, feature_read, features_in, features_listed};

use crate::ConfigError;
use crate::fields::{comment, field, list, object, text};
use rv_names::Text;
use serde_json::Value;
use std::alloc::Global;

#[tactic(auto, unfolding(crate::specs::Reading::feature_read))]
fn feature(alloc: Global, item: &Value) -> Result<Text, ConfigError>
    ensures { Gives (λ x. x) result (feature_read (view item.now)) }
{
    object(item)?;
    let name = text(alloc, field(item, "name")?)?;
    comment(item)?;
    Ok(name)
}

fn features_listed(alloc: Global, value: &Value) -> Result<Vec<Text>, ConfigError>
    ensures { Gives (λ v. v.items) result (features_listed (view value.now)) }
{
    let mut features = Vec::new(alloc);
    for item in list(value)? {
        features.push(feature(alloc, item)?)?;
    }
    Ok(features)
}

/// The names of the features. The list may be missing, and names may be repeated.
pub fn features(alloc: Global, config: &Value) -> Result<Vec<Text>, ConfigError>
    ensures { Gives (λ v. v.items) result (features_in (get (codes "features") (view config.now))) }
{
    match config.get("features") {
        None => Ok(Vec::new(alloc)),
        Some(value) => features_listed(alloc, value),
    }
}
