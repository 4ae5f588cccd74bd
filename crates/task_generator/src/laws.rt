//! Laws of what a body executes.

ghost use Rattle.std.specs.Prelude.{◌≤◌, ◌*◌, ℕ, length};
ghost use Rattle.bus_semantics.specs.Common.{BodyTree, body_cost, Runnable};
ghost use Rattle.task_generator.specs.Bounds.{steps_of_body, loops_of_body};
ghost use Rattle.task_generator.specs.Code.{code_of_body};

/// An activation executes at most three instructions of its program for each 1 of what that costs (OS: execution budget). The program
/// has no more instructions than that, and no more loops within one another than it costs.
pub fn costs_bound_bodies()
    ensures steps { (body : BodyTree) → steps_of_body body ≤ 3 * body_cost body }
    ensures code { (r : Runnable) (depth : ℕ) (body : BodyTree) → length (code_of_body r depth body) ≤ steps_of_body body }
    ensures loops { (body : BodyTree) → loops_of_body body ≤ body_cost body }
{}
