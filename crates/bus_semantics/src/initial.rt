//! The value that an element has before it is first written.

ghost use Rattle.std.specs.Prelude.{◌≡◌, IfOk};

use rte_text::Memory;
use rte_value::{Value, Word};
use std::alloc::Global;
use std::marker::Model;

/// What a read gives before the first write. One word lies in it; a value of another length lies
/// apart, so that a plan of many elements stays small. Clauses see it as the value.
#[derive(Drop)]
pub struct InitValue {
    held: Held,
}

/// Where the words of an initial value lie.
#[derive(Drop)]
enum Held {
    Here(Word),
    Apart(Box<Value>),
}

impl Model for InitValue {
    ghost use Rattle.rte_value.specs.declared.value.Value.{Value as words};
    ghost use Rattle.bus_semantics.specs.Initial.{value_held};

    ghost Value = { words };

    ghost view = { λ i. value_held i.held };
}

impl InitValue {
    /// This value. The only error is that there is no memory for it; one word takes none.
    pub fn new(alloc: Global, value: Value) -> Result<InitValue, Memory>
        ensures { IfOk result (λ i. i ≡ value) }
    {
        let held = match value.words() {
            [word] => Held::Here(*word),
            _ => Held::Apart(Box::new(alloc, value)?),
        };
        Ok(InitValue { held })
    }

    /// The value.
    pub fn value(&self) -> Value
        ensures { result ≡ self.now }
    {
        match &self.held {
            Held::Here(word) => Value::of_word(*word),
            Held::Apart(value) => **value,
        }
    }
}
