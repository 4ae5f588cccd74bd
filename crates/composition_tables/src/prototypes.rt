//! What a composition holds.

ghost use Rattle.std.specs.Prelude.{◌≡◌};
ghost use Rattle.std.specs.List.{list_any};
ghost use Rattle.description_types.specs.Paths.{prototypes_of, is_composition};

use description_types::{Description, Prototype, PrototypeType};

/// The prototypes of a composition, none past the last composition.
pub fn prototypes_of(d: &Description, composition: usize) -> &[Prototype]
    ensures { result.now ≡ prototypes_of d.now composition }
{
    match d.compositions.items().get(composition) {
        Some(found) => found.prototypes.items(),
        None => &[],
    }
}

/// Whether a composition has a prototype of another one, or of itself.
pub fn holds(d: &Description, holder: usize, held: usize) -> bool
    ensures { result ≡ list_any (λ p. is_composition held p.of_type) (prototypes_of d.now holder) }
{
    prototypes_of(d, holder)
        .iter()
        .any(|prototype| is_composition(held, prototype.of_type))
}

fn is_composition(composition: usize, of_type: PrototypeType) -> bool
    ensures { result ≡ is_composition composition of_type }
{
    match of_type {
        PrototypeType::Composition(other) => other as usize == composition,
        PrototypeType::Component(_) => false,
    }
}
