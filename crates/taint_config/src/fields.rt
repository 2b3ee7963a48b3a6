//! The fields of JSON objects, each read as the type that its place asks for.

ghost use Rattle.std.specs.Prelude.{◌≡◌, map};
ghost use Rattle.serde_json.specs.View.{view};
ghost use Rattle.taint_config.specs.Reading.{Gives, object_read, field_read, text_read, list_read, code_read, comment_read};

use crate::ConfigError;
use rv_names::Text;
use serde_json::Value;
use std::alloc::Global;

pub fn object(value: &Value) -> Result<(), ConfigError>
    ensures { Gives (λ x. x) result (object_read (view value.now)) }
{
    if value.is_object() {
        Ok(())
    } else {
        Err(ConfigError::WrongType)
    }
}

/// What stands at a key that each such object has. It costs the logarithm of the number of keys.
pub fn field<'a>(object: &'a Value, key: &str) -> Result<&'a Value, ConfigError>
    ensures { Gives (λ x. view x.now) result (field_read key.now (view object.now)) }
{
    match object.get(key) {
        Some(value) => Ok(value),
        None => Err(ConfigError::Missing),
    }
}

#[tactic(auto, using(crate::proofs::Json::list_given))]
pub fn list(value: &Value) -> Result<&[Value], ConfigError>
    ensures { Gives (λ x. map view x.now) result (list_read (view value.now)) }
{
    match value.as_array() {
        Some(items) => Ok(items.as_slice()),
        None => Err(ConfigError::WrongType),
    }
}

pub fn string(value: &Value) -> Result<&str, ConfigError>
    ensures { Gives (λ x. x.now) result (text_read (view value.now)) }
{
    match value.as_str() {
        Some(text) => Ok(text),
        None => Err(ConfigError::WrongType),
    }
}

pub fn text(alloc: Global, value: &Value) -> Result<Text, ConfigError>
    ensures { Gives (λ x. x) result (text_read (view value.now)) }
{
    let text = Text::read(alloc, string(value)?)?;
    Ok(text)
}

/// A whole number from 0 to 4,294,967,295.
pub fn code(value: &Value) -> Result<u32, ConfigError>
    ensures { Gives (λ x. x) result (code_read (view value.now)) }
{
    let Some(number) = value.as_u64() else {
        return Err(ConfigError::WrongType);
    };
    match u32::try_from(number) {
        Ok(code) => Ok(code),
        Err(_) => Err(ConfigError::WrongType),
    }
}

/// A comment is a string, and may be missing.
pub fn comment(object: &Value) -> Result<(), ConfigError>
    ensures { Gives (λ x. x) result (comment_read (view object.now)) }
{
    match object.get("comment") {
        None => Ok(()),
        Some(value) => {
            string(value)?;
            Ok(())
        }
    }
}
