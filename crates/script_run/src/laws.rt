//! Laws of runs.

ghost use Rattle.std.specs.Prelude.{ℕ, List, [], ◌++◌, Option};
ghost use Rattle.bus_semantics.specs.declared.script.Line.{Line};
ghost use Rattle.bus_semantics.specs.declared.script.Mapping.{Mapping};
ghost use Rattle.bus_semantics.specs.Common.{Plan, History, IsBeginningOf, IsLegalRun, IsSessionOf, Ordered, Session, orders_of_script};
ghost use Rattle.core_runtime.specs.Nodes.{NodeState};
ghost use Rattle.script_run.specs.declared.writing.Writing.{Writing};
ghost use Rattle.script_run.specs.Legal.{IsLegalFrom};
ghost use Rattle.script_run.specs.Standing.{IsCut, StandsIn, outside};

/// A run that goes on legally from no history is a legal run.
pub fn runs_from_nothing_are_runs()
    ensures { (p : Plan) (m : Mapping) (s : Session) → IsLegalFrom p m [] s → IsLegalRun p m s }
{}

/// What is added to a session outside its run lines, by the orders of a script, is a session of that script; and a beginning of one,
/// if it was cut off.
pub fn what_is_added_is_a_session()
    ensures whole { (p : Plan) (m : Mapping) (h : History) (orders : List Ordered) (old new : NodeState) (s items : Session)
        (script : List Line)
        → StandsIn p m h orders outside old s → StandsIn p m h (orders ++ orders_of_script script) outside new (items ++ s) → IsSessionOf script items }
    ensures cut { (w : Writing) (p : Plan) (m : Mapping) (h : History) (orders : List Ordered) (old : NodeState) (s : Session)
        (script : List Line) (before after : Option (List ℕ))
        → StandsIn p m h orders outside old s → (cut : IsCut w p m h (orders ++ orders_of_script script) s before after) → IsBeginningOf script cut.items }
{}
