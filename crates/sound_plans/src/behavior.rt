//! Laws of sound plans, each a field of `IsSound`.

ghost use Rattle.std.specs.Prelude.{◌≡◌, true, ◌&&◌, length, map, nat_le};
ghost use Rattle.plan_definitions.specs.Common.{Description, Flat, IsWhole};
ghost use Rattle.bus_laws.specs.Common.{BusPlan, PointPlan, Mapping};
ghost use Rattle.bus_semantics.specs.Common.{plan_of, every_from, WaitOrder, mapping_fits, points_arranged, points_fit, lists_sound, caller_rank, named_once, runnable_sound, direct_sound};
ghost use Rattle.bus_semantics.specs.Common.{event_sound, server_served, serves_back};

use bus_laws::accepted_programs_are_sound;

/// The tasks fit the plan (SWS_RTE, RteEventToTaskMapping): cores, names and events are in range, each event is mapped
/// as often as it is owed, a server's if it has a queue, and the events of a runnable are in one task.
pub fn tasks_fit()
    ensures { (d : Description) (f : Flat) (p : BusPlan) (m : Mapping) → IsWhole d f p m → mapping_fits (plan_of p) m ≡ true }
{}

/// Events are sound (Software Component Template, RTEEvent): each starts a runnable, and what it names, an element, a
/// server, a point or a machine, is there and of its instance; the modes are of the machine's group; a runnable that is
/// invoked has no other event. There are at most 16,384 of them.
pub fn events_fit()
    ensures { (d : Description) (f : Flat) (p : BusPlan) (m : Mapping) → IsWhole d f p m → (every_from 0 (event_sound (plan_of p)) (plan_of p).events && nat_le (length (plan_of p).events) 16384) ≡ true }
{}

/// Each list is one of the runnable that it names: 2 to 16 elements with at most 16 words, each of which the runnable reads, or
/// each of which it writes, implicitly; no element stands twice in the lists of a runnable.
pub fn lists_of_plans_are_sound()
    ensures { (d : Description) (f : Flat) (p : BusPlan) (m : Mapping) → IsWhole d f p m → lists_sound (plan_of p) ≡ true }
{}

/// Servers are sound (Software Component Template, OperationInvokedEvent): their queues, arguments and error codes are in
/// range; a server's event invokes it and starts its runnable, which serves it, and no other runnable does.
pub fn servers_serve()
    ensures { (d : Description) (f : Flat) (p : BusPlan) (m : Mapping) → IsWhole d f p m → (every_from 0 (server_served (plan_of p)) (plan_of p).servers && every_from 0 (serves_back (plan_of p)) (plan_of p).runnables) ≡ true }
{}

/// A server without a queue runs with its caller (SWS_RTE, direct function call): its runnable calls nothing and takes no
/// result, and the environment does not call it.
pub fn direct_servers_fit()
    ensures { (d : Description) (f : Flat) (p : BusPlan) (m : Mapping) → IsWhole d f p m → every_from 0 (direct_sound (plan_of p)) (plan_of p).servers ≡ true }
{}

/// Points stand by runnable and access (Software Component Template, ServerCallPoint), and those of the environment come
/// last.
pub fn points_stand_by_caller()
    ensures { (d : Description) (f : Flat) (p : BusPlan) (m : Mapping) → IsWhole d f p m → points_arranged (plan_of p) ≡ true }
{}

/// An operation that an instance or the environment calls without waiting has no other point there (Software Component
/// Template, AsynchronousServerCallPoint). A point has at most 16 arguments, each with limits of a base type's range; one
/// that is joined to a server has its arguments, word for word.
pub fn points_fit_their_servers()
    ensures { (d : Description) (f : Flat) (p : BusPlan) (m : Mapping) → IsWhole d f p m → points_fit (plan_of p) ≡ true }
{}

/// No runnable, and not the environment, has two points of one name (Software Component Template, ServerCallPoint).
pub fn points_are_named_once()
    ensures { (d : Description) (f : Flat) (p : BusPlan) (m : Mapping) → IsWhole d f p m →
        named_once (map (λ (t : PointPlan). (caller_rank (plan_of p) t, t.name)) (plan_of p).points) ≡ true }
{}

/// Runnables are sound (Software Component Template, RunnableEntity): what an access names is there, of the instance, and
/// takes its words; the accesses are distinct; of two areas the one that is declared later has the greater number; each
/// statement of the program has its access and stands where it may; the program costs at most 100,000 and has at most 256
/// variables, and a server's has one for each argument and one more.
pub fn runnables_fit()
    ensures { (d : Description) (f : Flat) (p : BusPlan) (m : Mapping) → IsWhole d f p m → every_from 0 (runnable_sound (plan_of p)) (plan_of p).runnables ≡ true }
{
    accepted_programs_are_sound();
}

/// Waiting calls have an order (SWS_RTE, synchronous calls): each call of a queued server by `call` goes from a task to one
/// of a greater rank, so no chain of them leads back to its task.
pub fn waits_are_ordered()
    ensures { (d : Description) (f : Flat) (p : BusPlan) (m : Mapping) → IsWhole d f p m → WaitOrder (plan_of p) m }
{}
