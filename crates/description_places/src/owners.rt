//! What the component or composition declares that a value stands in.

ghost use Rattle.std.specs.Prelude.{◌≡◌, option_copied};
ghost use Rattle.description_places.specs.Around.{type_around};
ghost use Rattle.description_places.specs.Owners.{component_of, composition_of};
ghost use Rattle.description_shapes.specs.Trails.{spot_of};

use crate::around::type_around;
use crate::catalogs::{Catalog, ComponentLists, CompositionLists, TypeNumber};
use description_shapes::Trail;

pub(crate) fn component_around<'s, 'v>(
    declared: &'s Catalog<'v>,
    trail: &Trail,
) -> Option<&'s ComponentLists<'v>>
    ensures { option_copied result ≡ component_of declared.now (type_around ((spot_of trail.now).around)) }
{
    match type_around(trail) {
        Some(TypeNumber::Component(number)) => declared
            .prototypes
            .in_components
            .items()
            .get(number),
        _ => None,
    }
}

pub(crate) fn composition_around<'s, 'v>(
    declared: &'s Catalog<'v>,
    trail: &Trail,
) -> Option<&'s CompositionLists<'v>>
    ensures { option_copied result ≡ composition_of declared.now (type_around ((spot_of trail.now).around)) }
{
    match type_around(trail) {
        Some(TypeNumber::Composition(number)) => declared
            .prototypes
            .in_compositions
            .items()
            .get(number),
        _ => None,
    }
}
