//! Calls of the environment.

ghost use Rattle.std.specs.Prelude.{◌≡◌, ℕ, ◌∷◌, true, false};
ghost use Rattle.bus_semantics.specs.declared.entries.Actor.TheVariants.{Env};
ghost use Rattle.bus_semantics.specs.Common.{wish_fits, History, plan_of, wanted_by, wanted_of};
ghost use Rattle.port_objects.specs.Common.{tick_of_env};
ghost use Rattle.core_runtime.specs.Nodes.{IsLawfulNode};

use crate::node::Node;
use crate::waking::{wake_after, wake_ticked};
use bus_semantics::{Actor, Deed, Entry, Wish};
use core_turn::{cores_stand_beside_the_environment, waiters_sleep_on};
use history_laws::{calls_come, what_comes_may_follow};
use port_objects::{
    Filled, act_in_place, free_deed, free_deeds_are_legal, object_of, sound_plans_have_objects,
    tick,
};

impl Node {
    /// Makes the one entry that a wish of the environment may have now: a tick, or a call at an outer port. The wish fits the
    /// environment. At an outer operation that is not joined, an ask and the taking of a result are answered RTE_E_UNCONNECTED.
    /// It takes no memory. For every history for which the node is lawful, it is lawful for the history and the entry, so the
    /// entry is legal there.
    pub fn environment(&mut self, wish: &Wish) -> Entry
        requires fits { wish_fits (plan_of self.old.plan) Env (wanted_of wish.now) ≡ true }
        ensures actor { result.actor ≡ Env }
        ensures wish { (by : ℕ) → wanted_by by result.deed ≡ wanted_of wish.now }
        ensures plan { self.new.plan ≡ self.old.plan }
        ensures mapping { self.new.mapping ≡ self.old.mapping }
        ensures bodies { self.new.bodies ≡ self.old.bodies }
        ensures entries { self.new.entries ≡ self.old.entries }
        ensures spare { self.new.spare ≡ self.old.spare }
        ensures lawful { (h : History) → IsLawfulNode self.old h → IsLawfulNode self.new (result ∷ h) }
    {
        sound_plans_have_objects();
        what_comes_may_follow();
        calls_come();
        free_deeds_are_legal();
        cores_stand_beside_the_environment();
        waiters_sleep_on();
        match object_of(&self.plan, &Actor::Env, wish) {
            Some(object) => {
                let mut entry = Entry {
                    actor: Actor::Env,
                    deed: Deed::Tick,
                };
                match act_in_place(
                    &self.plan,
                    &mut self.live.objects[object as usize],
                    &Actor::Env,
                    wish,
                    &mut entry,
                ) {
                    Filled::Done => {
                        wake_after(
                            &self.plan,
                            &entry,
                            None,
                            self.live.objects.as_slice(),
                            &mut self.live.watch,
                        );
                        entry
                    }
                    Filled::NotYet(_) => unreachable!(),
                }
            }
            None => match free_deed(wish) {
                Some(deed) => Entry {
                    actor: Actor::Env,
                    deed,
                },
                None => unreachable!(),
            },
        }
    }

    /// Makes a tick of the clock (SWS_RTE: TimingEvent): what `environment` makes of a wish for one, without its entry, which is always the
    /// same. It takes no memory. For every history for which the node is lawful, it is lawful for the history and a tick, so the tick is
    /// legal there.
    pub fn tick(&mut self)
        ensures plan { self.new.plan ≡ self.old.plan }
        ensures mapping { self.new.mapping ≡ self.old.mapping }
        ensures bodies { self.new.bodies ≡ self.old.bodies }
        ensures entries { self.new.entries ≡ self.old.entries }
        ensures spare { self.new.spare ≡ self.old.spare }
        ensures lawful { (h : History) → IsLawfulNode self.old h → IsLawfulNode self.new (tick_of_env ∷ h) }
    {
        // A tick always touches the clock. No clause says so, and none has to: `environment` makes it on any object.
        if !self.tick_clock() {
            self.environment(&Wish::Tick);
        }
    }

    /// Makes a tick on the object that a tick touches, and wakes what is due by it, if this object is the clock: the answer is whether it is.
    /// If not, nothing changes.
    fn tick_clock(&mut self) -> bool
        ensures plan { self.new.plan ≡ self.old.plan }
        ensures mapping { self.new.mapping ≡ self.old.mapping }
        ensures bodies { self.new.bodies ≡ self.old.bodies }
        ensures entries { self.new.entries ≡ self.old.entries }
        ensures spare { self.new.spare ≡ self.old.spare }
        ensures lawful { result ≡ true → (h : History) → IsLawfulNode self.old h → IsLawfulNode self.new (tick_of_env ∷ h) }
        ensures same { result ≡ false → self.new ≡ self.old }
    {
        sound_plans_have_objects();
        what_comes_may_follow();
        cores_stand_beside_the_environment();
        waiters_sleep_on();
        match object_of(&self.plan, &Actor::Env, &Wish::Tick) {
            Some(number) => {
                if tick(&self.plan, &mut self.live.objects[number as usize]) {
                    wake_ticked(number, self.live.objects.as_slice(), &mut self.live.watch);
                    true
                } else {
                    false
                }
            }
            None => unreachable!(),
        }
    }
}
