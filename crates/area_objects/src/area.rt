//! An exclusive area as an object.

ghost use Rattle.std.specs.Prelude.{◌≡◌, ℕ};
ghost use Rattle.bus_semantics.specs.Common.{Plan, to_enter, to_leave, wanted_of};
ghost use Rattle.object_kinds.specs.Common.{IsAnswerOf, acted};
ghost use Rattle.area_objects.specs.Kept.{opening, may_start};
ghost use Rattle.area_objects.specs.Leading.{lead, why_held};
ghost use Rattle.area_objects.specs.Plans.{IsOfPlan};

use crate::held::{Area, Entered};
use bus_semantics::{Actor, Deed, Entry, Wish};
use object_kinds::{Filled, Shown};
use std::marker::Model;

/// An exclusive area of one component instance (SWS_RTE: Rte_Enter, Rte_Exit), seen as the activation that is in it.
#[derive(Drop)]
pub struct AreaObject {
    pub(crate) area: Area,
}

impl Model for AreaObject {
    ghost use Rattle.area_objects.specs.Kept.{Kept};

    ghost Value = { Kept };

    ghost view = { λ o. record { holder = o.area } };
}

impl AreaObject {
    /// An area that nobody has entered. It takes no memory.
    pub fn new() -> AreaObject
        ensures { result ≡ opening }
    {
        AreaObject { area: Area::new() }
    }

    /// Makes the entry of a wish on the area, if one may come, and fills it in at `out`: an activation enters the area if nobody is in
    /// it, and leaves it if it is in it itself (SWS_RTE: Rte_Enter, Rte_Exit). It takes no memory. `NotYet` changes nothing of the
    /// area; for an Enter it names the activation that is in it.
    pub fn act(&mut self, who: &Actor, wish: &Wish, out: &mut Entry) -> Filled
        ensures planned { (p : Plan) (object : ℕ) → IsOfPlan p object self.old → IsOfPlan p object self.new }
        ensures answer { (p : Plan) → IsAnswerOf p lead may_start why_held who.now (wanted_of wish.now) self.old self.new (acted result out.new) }
    {
        match wish {
            Wish::Enter { area } => self.enter(who, *area, out),
            Wish::Leave { area } => self.leave(who, *area, out),
            _ => Filled::NotYet(Shown::Unmatched),
        }
    }

    /// Enters the area.
    fn enter(&mut self, who: &Actor, area: u32, out: &mut Entry) -> Filled
        ensures { (p : Plan) → IsAnswerOf p lead may_start why_held who.now (to_enter area) self.old self.new (acted result out.new) }
    {
        match who {
            Actor::Act(key) => match self.area.enter(*key) {
                Entered::In => {
                    *out = Entry {
                        actor: *who,
                        deed: Deed::Enter { area },
                    };
                    Filled::Done
                }
                Entered::Held(holder) => Filled::NotYet(Shown::HeldBy(holder)),
            },
            _ => Filled::NotYet(self.why_outside()),
        }
    }

    /// Leaves the area.
    fn leave(&mut self, who: &Actor, area: u32, out: &mut Entry) -> Filled
        ensures { (p : Plan) → IsAnswerOf p lead may_start why_held who.now (to_leave area) self.old self.new (acted result out.new) }
    {
        let is_left = match who {
            Actor::Act(key) => self.area.exit(*key),
            _ => false,
        };
        if is_left {
            *out = Entry {
                actor: *who,
                deed: Deed::Leave { area },
            };
            Filled::Done
        } else {
            Filled::NotYet(Shown::Unmatched)
        }
    }

    /// Why nobody but an activation enters.
    fn why_outside(&self) -> Shown
        ensures { result ≡ why_held self.now (to_enter 0) }
    {
        match self.area.holder() {
            Some(holder) => Shown::HeldBy(holder),
            None => Shown::Unmatched,
        }
    }
}
