//! The next phase of a mode machine.

ghost use Rattle.std.specs.Prelude.{◌≡◌, ◌<◌, ◌∷◌, [], length};
ghost use Rattle.bus_semantics.specs.Common.{vec_capacity, plan_of, to_move_on, IsSound};
ghost use Rattle.bus_laws.specs.Common.{Mapping, Machine};
ghost use Rattle.task_machine.specs.declared.instr.TaskSet.{TaskSet};
ghost use Rattle.task_slots.specs.declared.slot.Slot.TheVariants as slots;
ghost use Rattle.task_slots.specs.Look.{IsWrittenLook, look_of};
ghost use Rattle.task_slots.specs.Looking.{Looked};
ghost use Rattle.task_slots.specs.Stepping.{SlotLooked};

use crate::look::Looks;
use crate::trying::try_wish;
use bus_semantics::{Actor, BusPlan, Stamped, Wish};
use port_objects::{Bench, sound_plans_have_objects};

/// A mode machine tries its next phase (SWS_RTE: mode switch procedure).
pub(crate) fn move_on<B: Bench>(
    p: &BusPlan,
    number: u32,
    bench: &mut B,
    made: &mut Vec<Stamped>,
) -> Looks
    requires room { 0 < (B.told bench.old).room }
    requires space { length made.old.items < vec_capacity made.old }
    requires plan { B.plan bench.old ≡ plan_of p.now }
    requires sound { (m : Mapping) × IsSound (plan_of p.now) m }
    requires there { number < length p.now.machines }
    ensures home { B.home bench.new ≡ B.home bench.old }
    ensures plan { B.plan bench.new ≡ B.plan bench.old }
    ensures capacity { vec_capacity made.new ≡ vec_capacity made.old }
    ensures written { IsWrittenLook made.old.items made.new.items result }
    ensures looked { Looked (plan_of p.now) ((Machine number, to_move_on) ∷ []) 1 (B.told bench.old) (B.told bench.new) (look_of result made.new.items) }
    ensures slot { (t : TaskSet) → SlotLooked (plan_of p.now) t (slots.Machine number) (slots.Machine number) (look_of result made.new.items) }
{
    sound_plans_have_objects();
    try_wish(p, &Actor::Machine(number), &Wish::Phase, bench, made)
}
