//! Whether two texts are equal, as numbers or byte by byte.

use crate::members::string_of;
use crate::refusal::Refusal;
use serde_json::Value;
use wk_decimal::same;

/// Whether the members `a` and `b` are equal.
pub fn same_value(request: &Value) -> Result<Value, Refusal> {
    let Some(a) = string_of(request, "a") else {
        return Err(Refusal::NoOperand);
    };
    let Some(b) = string_of(request, "b") else {
        return Err(Refusal::NoOperand);
    };
    Ok(Value::Bool(same(a.as_bytes(), b.as_bytes())))
}
