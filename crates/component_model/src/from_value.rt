//! Values that are read from JSON.

ghost use Rattle.std.specs.Prelude.{◌≡◌, IfOk, map};
ghost use Rattle.serde_json.specs.Data.{Data};
ghost use Rattle.serde_json.specs.View.{view};

use rte_text::{Memory, Seq};
use serde_json::Value;
use std::alloc::Global;

/// What is read from a JSON value, where names mean what the scope says.
pub trait FromValue<S> {
    // what the data stands for
    ghost reading: { S → Data → Self };

    /// What the value stands for. The only error is that there is no memory for it.
    fn from_value(alloc: Global, scope: &S, value: &Value) -> Result<Self, Memory>
        ensures { IfOk result (λ x. x ≡ reading scope.now (view value.now)) };
}

/// What each of the values stands for.
pub fn read_list<S, T: FromValue<S> + Drop>(
    alloc: Global,
    scope: &S,
    values: &[Value],
) -> Result<Seq<T>, Memory>
    ensures { IfOk result (λ xs. xs ≡ map (T.reading scope.now) (map view values.now)) }
{
    let mut list = Vec::with_capacity(alloc, values.len())?;
    for value in values {
        list.push(T::from_value(alloc, scope, value)?)?;
    }
    Ok(Seq::of(list))
}
