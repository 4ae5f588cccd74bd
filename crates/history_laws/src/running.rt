//! The law of running activations.

ghost use Rattle.std.specs.Prelude.{◌≡◌, true};
ghost use Rattle.bus_semantics.specs.Common.{ActKey, Plan, History, runs, IsLegal, IsSound};
ghost use Rattle.bus_semantics.specs.declared.script.Mapping.{Mapping};
ghost use Rattle.history_laws.specs.Running.{GoesOn};

/// A running activation was started by an event of its runnable, was answered what it asked since, and has a next wish,
/// which fits. That wish is its own.
pub fn running_activations_go_on()
    ensures { (p : Plan) (m : Mapping) (h : History) (k : ActKey) → IsSound p m → IsLegal p h → runs k h ≡ true → GoesOn p h k }
{}
