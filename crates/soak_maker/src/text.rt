//! Values that are written as JSON text.

ghost use Rattle.std.specs.Prelude.{◌≡◌, true, IfErr, IfOk};
ghost use Rattle.serde_json.specs.Errors.{IsMemory};
ghost use Rattle.serde_json.specs.View.{view};
ghost use Rattle.soak_maker.specs.Json.{is_shallow, written};

use rte_text::Memory;
use serde_json::{Error, Value};
use std::alloc::{AllocError, Global};

/// The value that the text is.
fn read_text(alloc: Global, text: &str) -> Result<Value, Error>
    requires { is_shallow text.now ≡ true }
    ensures value { IfOk result (λ v. view v ≡ written text.now) }
    ensures memory { IfErr result IsMemory }
{
    Value::from_str(alloc, text)
}

/// The value that the text is. The only error is that there is no memory for it.
pub(crate) fn written(alloc: Global, text: &str) -> Result<Value, Memory>
    requires { is_shallow text.now ≡ true }
    ensures { IfOk result (λ v. view v ≡ written text.now) }
{
    match read_text(alloc, text) {
        Ok(value) => Ok(value),
        Err(_) => Err(AllocError),
    }
}
