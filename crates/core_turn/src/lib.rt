//! The turn of a core: one entry of one of its tasks or mode machines, in cyclic order, over any bench.
//!
//! What sleeps is not tried again (`Awake`). An event sleeps from the try that finds that it may not start, a task in which
//! nothing runs once none of its events may, and a mode machine once its next phase may not come. A task whose activation asks to
//! enter an exclusive area sleeps from the try that finds somebody in it, and one whose activation waits for an answer from the
//! try that finds that nothing was returned; any other running activation stays awake. Whoever makes an entry wakes what may come
//! by it: the mode machine whose object it touched, after a Return the caller's task, the events that the changed object tells,
//! each with its task, and after a Leave on each core the first task that waits at that area.
//!
//! # Decisions
//!
//! **Why does `Core::new` take the plan?** Core 0 has a slot for each mode machine of the plan behind its tasks.
//!
//! **Where does a turn begin?** At a kept place, one behind the slot that stepped; the place after the last slot counts as the
//! first.
//!
//! **For which plans are turns built?** For every sound plan. The laws of activations and of histories say of every sound plan
//! what a turn has to know of them. Which objects there are is asked of a plan where objects are made, and by no turn.
//!
//! **When does a slot sleep?** When nothing runs in it and no event of it may start; when it is a mode machine's and the next
//! phase may not come; or when its activation asks to enter an area in which somebody is, or waits for an answer that was not
//! returned. A running activation that asks for anything else stays awake. A direct activation needs no such sleep, since it makes
//! no calls. An event sleeps from the try that found it held, and whoever changes an object wakes what may then come. A turn wakes
//! nothing itself, since it cannot know what its entry made due on other cores.
//!
//! **Who wakes when an area is left?** On each core the first slot that waits there, in cyclic order from the slot at which the
//! core's next turn begins. If all woke, each Leave would cost a try of each that waits, and a line of n activations n squared
//! tries. The others may sleep on, since the first is tried before them: whether it enters or finds another there, they may not
//! enter. The order is that of the core, so what a turn makes is the same as if all were tried. `Awake` keeps the number of that
//! first slot itself, since a Leave may come from another core.
//!
//! **What is the room of a trace?** Its spare capacity. `room` tells at most 2^32 - 1.
//!
//! **Why does `Core::make_room` take an allocator that it does not use?** Each call that can take memory takes one first, so that
//! a reader sees which can. The trace has an allocator of its own, as each `Vec` has, and room is taken from that.
//!
//! **Why are there two turns?** `turn` looks at every task and says what a turn is. `turn_of_awake` looks at what is awake and
//! makes the same; the node calls that one. `Awake`, `Core::tasks` and `Core::events` serve it. Below them is one look: `look_at`
//! of `task_slots` asks which events are awake (`Hints`: `All`, or a `PlaceSet`), and its contract is one, since what differs is a
//! number, how many looks are counted (`looks_awake`), and a premise that is void if nothing sleeps (`EventsHeld`).
//!
//! **Why is the pass over slots not one in the same way?** What is kept of events that sleep depends on these events alone. What
//! is kept of slots does not: a slot that waits at an area may sleep since another one that is awake comes before it in the order
//! that begins at the next slot (`IsPreceded` in `Awake.antt` of `core_turn`). So `held` of a pass speaks of the core's slots, of
//! the place at which it began and of that at which it ended, and after an entry of the object that this touched (`HeldPassed`). A
//! trait would have `Fits`, `HeldTold` and `looks_at_place` as members without a meaning of their own, the row of a slot as a
//! borrow whose end changes them, and each step that a pass makes of them as a law: the order goes on over slots that sleep, a
//! slot stepped, a slot settled, and that what was passed is held. For all slots each of these laws is empty. So one contract
//! would say of both passes only that something is kept, and its proof would be that of the pass over what is awake, with two sets
//! of laws more; the pass over all is 154 lines with its proof.
#![tactic(auto)]

mod awake;
mod awake_looks;
mod awake_turn;
mod cores;
mod guessing;
mod laws;
mod limits;
mod looking;
mod making;
mod passed;
mod rousing;
mod tasks;
mod threads;
mod turning;

pub use awake::Awake;
pub use awake_turn::turn_of_awake;
pub use cores::Core;
pub use laws::{
    cores_stand_beside_one_another, cores_stand_beside_the_environment,
    nothing_now_is_rest_of_the_core, resting_cores_are_at_rest, turns_keep_the_law,
    waiters_sleep_on,
};
pub use limits::{goes_on, looks_at_all};
pub use turning::{Turned, turn};

/// There was no memory for what a call makes.
pub type Memory = std::alloc::AllocError;
