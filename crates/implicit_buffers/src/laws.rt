//! Laws of what is fetched and published.

ghost use Rattle.std.specs.Prelude.{◌≡◌, ℕ, List, [], map};
ghost use Rattle.runnable_lang.specs.declared.program.AccessKind.TheVariants.{IRead, IrvIRead};
ghost use Rattle.bus_semantics.specs.Common.{BodyTree, reads_early, reads_variable_early, Plan, Runnable, State, access, put_all, words_under, Go, running, run_program, one, fetches_of};
ghost use Rattle.bus_semantics.specs.Common.{publications_of, fetching, publishing};
ghost use Rattle.bus_semantics.specs.declared.entries.Deed.{Deed};
ghost use Rattle.implicit_buffers.specs.Buffers.{fetched_by, published_by, fetching_each, publishing_each};

/// An activation of a runnable without coherent lists fetches the fetched elements of its runnable, one after the other, in declared
/// order.
pub fn runnables_fetch_in_declared_order()
    ensures elements { (p : Plan) (r : Runnable) → r.lists ≡ [] → fetches_of p r ≡ map one (fetched_by r) }
    ensures fetches { (p : Plan) (r : Runnable) → r.lists ≡ [] → fetching p r ≡ fetching_each (fetched_by r) }
{}

/// An activation of a runnable without coherent lists publishes the published elements of its runnable that it wrote, one after the
/// other, in declared order.
pub fn runnables_publish_in_declared_order()
    ensures elements { (p : Plan) (r : Runnable) → r.lists ≡ [] → publications_of p r ≡ map one (published_by r) }
    ensures publications { (p : Plan) (r : Runnable) → r.lists ≡ [] → publishing p r ≡ publishing_each (published_by r) }
{}

/// What an activation fetched stays what it was, whatever its program does and whatever it is answered meanwhile. So an implicit read
/// takes the words that were fetched, and asks the bus for nothing (SWS_RTE: Rte_IRead, Rte_IrvIRead).
pub fn programs_leave_what_was_fetched()
    ensures kept { (r : Runnable) (before : BodyTree) (s t : State) (answers left : List Deed) → run_program r before s answers ≡ Go t left → t.fetched ≡ s.fetched }
    ensures read { (r : Runnable) (before : BodyTree) (s t : State) (answers left : List Deed) (port item : ℕ) (vars : List ℕ) → run_program r before s answers ≡ Go t left →
        running r (reads_early port item vars) t left ≡ Go (put_all vars (words_under (access r IRead port item).target s.fetched) t) left }
    ensures read_variable { (r : Runnable) (before : BodyTree) (s t : State) (answers left : List Deed) (item : ℕ) (vars : List ℕ) → run_program r before s answers ≡ Go t left →
        running r (reads_variable_early item vars) t left ≡ Go (put_all vars (words_under (access r IrvIRead 0 item).target s.fetched) t) left }
{}
