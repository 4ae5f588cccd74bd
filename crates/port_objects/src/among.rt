//! One entry on an object among all.

ghost use Rattle.std.specs.Prelude.{◌≡◌, true, Some};
ghost use Rattle.bus_semantics.specs.Common.{plan_of, wanted_of, wish_fits, asks_its_own, object_of, IsObject};
ghost use Rattle.object_kinds.specs.Common.{acted};
ghost use Rattle.port_objects.specs.Objects.{ArePlans};
ghost use Rattle.port_objects.specs.Plans.{HasObjects};
ghost use Rattle.port_objects.specs.Benches.{ActedOn};

use crate::acting::act_in_place;
use crate::object::Object;
use bus_semantics::{Actor, BusPlan, Entry, Wish};
use object_kinds::Filled;

/// Makes the entry of a wish on the object of this number, if one may come, where it is to lie.
pub(crate) fn act_among(
    p: &BusPlan,
    objects: &mut Vec<Object>,
    object: u32,
    who: &Actor,
    wish: &Wish,
    out: &mut Entry,
) -> Filled
    requires sound { HasObjects (plan_of p.now) }
    requires planned { ArePlans (plan_of p.now) objects.old.items }
    requires touching { object_of (plan_of p.now) who.now (wanted_of wish.now) ≡ Some object }
    requires fits { wish_fits (plan_of p.now) who.now (wanted_of wish.now) ≡ true }
    requires own { asks_its_own (plan_of p.now) who.now (wanted_of wish.now) ≡ true }
    requires there { IsObject (plan_of p.now) object }
    ensures planned { ArePlans (plan_of p.now) objects.new.items }
    ensures on { ActedOn (plan_of p.now) object who.now (wanted_of wish.now) objects.old.items objects.new.items (acted result out.new) }
{
    act_in_place(p, &mut objects[object as usize], who, wish, out)
}
