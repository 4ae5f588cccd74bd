//! Items of ports, by their positions.

ghost use Rattle.std.specs.Prelude.{◌≡◌};
ghost use Rattle.plan_definitions.specs.JoinedItems.{end_of};

use description_types::End;
use std::marker::Model;

/// An item of a port, of an instance or of the environment, by its positions in memory. Clauses see it as an end.
#[derive(Drop)]
pub struct Item {
    instance: Option<usize>,
    port: usize,
    element: usize,
}

impl Model for Item {
    ghost use Rattle.description_types.specs.declared.flat.End.{End};

    ghost Value = { End };

    ghost view = { λ i. record { instance = i.instance; port = i.port; element = i.element } };
}

fn wide(instance: Option<u32>) -> Option<usize>
    ensures { result ≡ instance }
{
    match instance {
        Some(number) => Some(number as usize),
        None => None,
    }
}

impl Item {
    /// The item at these positions: of the instance of this number, or of the environment.
    pub fn new(instance: Option<usize>, port: usize, element: usize) -> Item
        ensures { result ≡ end_of instance port element }
    {
        Item {
            instance,
            port,
            element,
        }
    }

    /// The item at an end.
    pub fn of(end: End) -> Item
        ensures { result ≡ end }
    {
        Item {
            instance: wide(end.instance),
            port: end.port as usize,
            element: end.element as usize,
        }
    }

    /// The number of its instance; None is the environment.
    pub fn instance(&self) -> Option<usize>
        ensures { result ≡ self.now.instance }
    {
        self.instance
    }

    /// The position of its port.
    pub fn port(&self) -> usize
        ensures { result ≡ self.now.port }
    {
        self.port
    }

    /// Its position in the port's interface.
    pub fn element(&self) -> usize
        ensures { result ≡ self.now.element }
    {
        self.element
    }
}
