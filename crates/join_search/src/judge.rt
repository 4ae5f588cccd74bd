//! Compatible interfaces.

ghost use Rattle.std.specs.Prelude.{◌≡◌, IfOk, is_some, slice_get};
ghost use Rattle.plan_definitions.specs.Interfaces.{serves, are_compatible};

use crate::elements::groups_agree;
use crate::hints::{Hints, hints_of, serve_elements, serve_operations};
use description_types::{InterfaceKind, TypeTable};
use rte_text::Memory;
use std::alloc::Global;

/// A judge of pairs of interfaces.
#[derive(Drop)]
pub struct Judge<'a> {
    types: &'a TypeTable,
    /// For each interface the hints of its items.
    hints: Vec<Hints<'a>>,
}

/// Whether an interface may serve as another. The hints are those of the provided one.
fn serves(
    hints: Option<&Hints>,
    types: &TypeTable,
    provided: &InterfaceKind,
    required: &InterfaceKind,
) -> bool
    ensures { result ≡ serves types.now provided.now required.now }
{
    use InterfaceKind as Kind;
    match (provided, required) {
        (Kind::SenderReceiver(provided), Kind::SenderReceiver(required)) => {
            serve_elements(hints, types, provided.items(), required.items())
        }
        (Kind::ClientServer(provided), Kind::ClientServer(required)) => {
            serve_operations(hints, types, provided.items(), required.items())
        }
        (Kind::ModeSwitch(provided), Kind::ModeSwitch(required)) => {
            groups_agree(types, provided, required)
        }
        _ => false,
    }
}

impl Judge<'_> {
    /// A judge of the interfaces of these types.
    pub fn new(alloc: Global, types: &TypeTable) -> Result<Judge<'_>, Memory>
        ensures { IfOk result (λ judge. judge.types.now ≡ types.now) }
    {
        let mut hints = Vec::new(alloc);
        for interface in types.interfaces.items() {
            hints.push(hints_of(alloc, &interface.kind)?)?;
        }
        Ok(Judge { types, hints })
    }

    fn is_declared(&self, interface: u32) -> bool
        ensures { result ≡ is_some (slice_get self.now.types.now.interfaces interface) }
    {
        let interfaces = self.types.interfaces.items();
        interfaces.get(interface as usize).is_some()
    }

    /// Whether the interfaces at two positions are compatible, the first of a provided port and the second of a required one. An
    /// interface is compatible with itself, without a look at its items.
    pub fn are_compatible(&self, provided: u32, required: u32) -> bool
        ensures { result ≡ are_compatible self.now.types.now provided required }
    {
        if provided == required {
            return self.is_declared(provided);
        }
        self.serves(provided, required)
    }

    fn serves(&self, provided: u32, required: u32) -> bool
        ensures { result ≡ are_compatible self.now.types.now provided required }
    {
        let hints = self.hints.get(provided as usize);
        let interfaces = self.types.interfaces.items();
        match (
            interfaces.get(provided as usize),
            interfaces.get(required as usize),
        ) {
            (Some(p), Some(r)) => serves(hints, self.types, &p.kind, &r.kind),
            _ => false,
        }
    }
}
