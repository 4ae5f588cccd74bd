//! The first connector that breaks its rule.

ghost use Rattle.std.specs.Prelude.{◌≡◌, ◌↔◌, ◌⊎◌, IfOk, OnOk, IsTrue, length, not, ◌||◌};
ghost use Rattle.composition_flatten.specs.declared.wiring.Key.{Key};
ghost use Rattle.description_types.specs.Members.{Among};
ghost use Rattle.description_types.specs.Connectors.{connectors_of, lets_join, IsBrokenConnector, IsFirstBroken};
ghost use Rattle.composition_flatten.specs.Keys.{key_of};
ghost use Rattle.description_types.specs.Firsts.{IsFirst};

use composition_tables::connectors::{connectors_of, lets_join};
use description_types::{Connector, Description};
use indexmap::IndexSet;
use rte_text::Memory;
use std::alloc::Global;

/// A connector, as it is looked up among those before it.
#[derive(Clone, Copy, PartialEq, Eq, Hash)]
pub enum Key {
    /// Prototype and port of the provider, then of the requester.
    Assembly(u32, u32, u32, u32),
    /// The inner prototype and port, then the outer port.
    Delegation(u32, u32, u32),
}

fn key_of(connector: Connector) -> Key
    ensures { result ≡ key_of connector }
{
    match connector {
        Connector::Assembly {
            provider,
            requester,
        } => {
            Key::Assembly(
                provider.prototype,
                provider.port,
                requester.prototype,
                requester.port,
            )
        }
        Connector::Delegation { inner, outer } => Key::Delegation(
            inner.prototype,
            inner.port,
            outer,
        ),
    }
}

/// Whether a key was noted before; now it is.
fn was_noted(noted: &mut IndexSet<Key>, key: Key) -> Result<bool, Memory>
    ensures answer { IfOk result (λ was. IsTrue was ↔ Among key noted.old.keys) }
    ensures noted { OnOk result ((other : Key) → Among other noted.new.keys ↔ (Among other noted.old.keys ⊎ (other ≡ key))) }
{
    let is_new = noted.insert(key)?;
    Ok(!is_new)
}

fn is_broken(d: &Description, composition: usize, connector: Connector, is_repeated: bool) -> bool
    ensures { result ≡ (is_repeated || not (lets_join d.now composition connector)) }
{
    is_repeated || !lets_join(d, composition, connector)
}

/// The number of the first connector of a composition that breaks its rule.
fn first_broken_in(
    alloc: Global,
    d: &Description,
    composition: usize,
) -> Result<Option<usize>, Memory>
    ensures { IfOk result (λ first. IsFirst (IsBrokenConnector d.now composition) (length (connectors_of d.now composition)) first) }
{
    let mut noted = IndexSet::new(alloc);
    let connectors = connectors_of(d, composition);
    for number in 0..connectors.len() {
        let connector = connectors[number];
        let is_repeated = was_noted(&mut noted, key_of(connector))?;
        if is_broken(d, composition, connector, is_repeated) {
            return Ok(Some(number));
        }
    }
    Ok(None)
}

/// The composition and the number of the first connector that breaks its rule.
pub fn first_broken(alloc: Global, d: &Description) -> Result<Option<(usize, usize)>, Memory>
    ensures { IfOk result (λ first. IsFirstBroken d.now first) }
{
    for composition in 0..d.compositions.len() {
        match first_broken_in(alloc, d, composition)? {
            Some(number) => return Ok(Some((composition, number))),
            None => {}
        }
    }
    Ok(None)
}
