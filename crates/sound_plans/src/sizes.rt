//! Laws of the objects, the queues and the mode machines of plans.

ghost use Rattle.std.specs.Prelude.{◌≡◌, true, length, nat_le};
ghost use Rattle.bus_semantics.specs.Common.{list_all, plan_of, queue_lengths, objects_counted, machine_sound};
ghost use Rattle.plan_definitions.specs.Common.{Description, Flat, IsWhole};
ghost use Rattle.bus_laws.specs.Common.{BusPlan, Mapping};

/// The objects of a plan are its bundles, servers, areas and mode machines, and the clock; there are at most 16,384 of them, and as
/// many of its groups, servers, areas and mode machines with the clock.
pub fn objects_of_plans_are_counted()
    ensures { (d : Description) (f : Flat) (p : BusPlan) (m : Mapping) → IsWhole d f p m → objects_counted (plan_of p) ≡ true }
{}

/// At most 262,144 points call operations.
pub fn points_of_plans_are_few()
    ensures { (d : Description) (f : Flat) (p : BusPlan) (m : Mapping) → IsWhole d f p m → nat_le (length p.points) 262144 ≡ true }
{}

/// The queue lengths of all receivers, queued servers and mode machines are together at most 65,536.
pub fn queues_of_plans_are_bounded()
    ensures { (d : Description) (f : Flat) (p : BusPlan) (m : Mapping) → IsWhole d f p m → nat_le (queue_lengths (plan_of p)) 65536 ≡ true }
{}

/// A mode machine has 1 to 32 modes, begins in one of them, and holds 1 to 1,024 switches.
pub fn machines_of_plans_are_sound()
    ensures { (d : Description) (f : Flat) (p : BusPlan) (m : Mapping) → IsWhole d f p m → list_all machine_sound p.machines ≡ true }
{}
