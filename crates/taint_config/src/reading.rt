//! A configuration from its bytes.

ghost use Rattle.std.specs.Prelude.{◌≡◌, ◌≢◌, [], IfErr, IfOk, OnOk, Some};
ghost use Rattle.std.specs.Option.{ok_or};
ghost use Rattle.serde_json.specs.View.{view};
ghost use Rattle.taint_config.specs.Config.{config_of, file_config};
ghost use Rattle.taint_config.specs.Faults.{config_faults, file_faults, first_fault};
ghost use Rattle.taint_config.specs.Reading.{Gives, json_read};
ghost use Rattle.taint_config.specs.declared.faults.ConfigError.TheVariants.{Memory};

use crate::notes::notes;
use crate::parts::parts;
use crate::{Config, ConfigError};
use serde_json::Value;
use std::alloc::Global;

fn json(alloc: Global, bytes: &[u8]) -> Result<Value, ConfigError>
    ensures { Gives view result (json_read bytes.now) }
{
    match Value::from_slice(alloc, bytes) {
        Ok(value) => Ok(value),
        Err(error) => {
            if error.is_memory() {
                return Err(ConfigError::Memory);
            }
            Err(ConfigError::NotJson)
        }
    }
}

fn config(alloc: Global, value: &Value) -> Result<Config, ConfigError>
    ensures faultless { OnOk result (config_faults (view value.now) ≡ []) }
    ensures config { IfOk result (λ c. c ≡ config_of (view value.now)) }
    ensures refused { IfErr result (λ e. e ≢ Memory → first_fault (config_faults (view value.now)) ≡ Some e) }
{
    let parts = parts(alloc, value)?;
    let notes = notes(alloc, value)?;
    Ok(Config::new(parts, notes))
}

/// The configuration that the bytes of a `taint.config` spell, in JSON (RFC 8259), or else the first of their faults.
///
/// The configuration is an object with lists `sources`, `sinks` and `rules`, and perhaps a list `features`. A source, a
/// sink or a feature is an object with a string `name`, and perhaps a string `comment`. A rule is an object with a string
/// `name`, a whole number `code` from 0 to 4,294,967,295, lists `sources` and `sinks` of names, and a string
/// `message_format`. The name of a source or a sink is an ASCII identifier of at most 64 characters. Every other key is
/// ignored with a note. Of a key that is repeated in one object the last value counts.
///
/// The faults are told in this order: `NotJson`; `WrongType` for a value that is no object; then the lists `sources`,
/// `sinks`, `rules` and `features`, each item by item, and each item field by field in the order above, with `Missing`,
/// `WrongType`, `Twice`, `UnknownKind` and `CodeTwice`; at last `TooManyKinds` for more than 255 sources and sinks.
/// `Memory` may come at any bytes.
///
/// It costs time linear in the bytes, but for the sorting of the keys of each object.
#[tactic(auto, using(crate::proofs::FileLaws::faults_given, crate::proofs::FileLaws::config_given, crate::proofs::FileLaws::fault_given))]
pub fn read_config(alloc: Global, bytes: &[u8]) -> Result<Config, ConfigError>
    ensures faultless { OnOk result (file_faults bytes.now ≡ []) }
    ensures config { IfOk result (λ c. c ≡ file_config bytes.now) }
    ensures refused { IfErr result (λ e. e ≢ Memory → first_fault (file_faults bytes.now) ≡ Some e) }
{
    let value = json(alloc, bytes)?;
    config(alloc, &value)
}
