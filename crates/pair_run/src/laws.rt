//! What the definitions of a pair come to.

ghost use Rattle.std.specs.Prelude.{◌≡◌, ◌++◌, ℕ, ℤ, List, filter, not, Some, slice_get, All};
ghost use Rattle.bus_laws.specs.Common.{Line, Mapping};
ghost use Rattle.bus_semantics.specs.Common.{Plan, IsSound, history_of, orders_of, orders_of_script, Letters};
ghost use Rattle.script_reading.specs.Common.{IsScriptBy, saying_around};
ghost use Rattle.signal_link.specs.declared.link_elem.LinkElem.{LinkElem};
ghost use Rattle.pair_run.specs.Joint.{Joint, one, two, side_of};
ghost use Rattle.pair_run.specs.Linked.{linked_in, links_of};
ghost use Rattle.pair_run.specs.Pairs.{IsBegunPairOf, IsPairOf};
ghost use Rattle.pair_run.specs.Parts.{is_link_receive, is_link_send, is_of_both, values_sent, values_taken};
ghost use Rattle.pair_run.specs.Running.{IsPairLine};

/// Each line of a script of two nodes is one that the environment of the first may carry out, keeps off the linked elements, and sends
/// only values within the limits.
pub fn pair_scripts_are_pair_lines()
    ensures { (p : Plan) (links : List LinkElem) (bytes : Letters) (lines : List Line) →
        IsScriptBy (saying_around p (linked_in p links)) bytes lines → All (IsPairLine p links) lines }
{}

/// On the first node the environment does what the script asks for, but for what it receives from linked elements. On the second it does
/// of the script the ticks and run lines, and else sends to linked elements alone.
pub fn each_side_does_its_part()
    ensures first { (p : Plan) (m : Mapping) (q : Plan) (n : Mapping) (script : List Line) (j : Joint) →
        All (IsPairLine p (links_of p q)) script →
        IsPairOf p m q n (links_of p q) script j →
        filter (λ o. not (is_link_receive (links_of p q) o)) (orders_of (side_of one j)) ≡ orders_of_script script }
    ensures second { (p : Plan) (m : Mapping) (q : Plan) (n : Mapping) (script : List Line) (j : Joint) →
        IsPairOf p m q n (links_of p q) script j →
        filter (λ o. not (is_link_send (links_of p q) o)) (orders_of (side_of two j)) ≡ orders_of_script (filter is_of_both script) }
{}

/// For each link the values that the environment of the second node sends are those that the environment of the first took, in order. In a run that
/// was cut off they are a beginning of these.
pub fn links_carry_what_was_taken()
    ensures whole { (p : Plan) (m : Mapping) (q : Plan) (n : Mapping) (script : List Line) (j : Joint) (k : ℕ) (l : LinkElem) →
        IsSound p m → All (IsPairLine p (links_of p q)) script → IsPairOf p m q n (links_of p q) script j → slice_get (links_of p q) k ≡ Some l →
        values_sent l.in_elem (history_of (side_of two j)) ≡ values_taken l.out_elem (history_of (side_of one j)) }
    ensures begun { (p : Plan) (m : Mapping) (q : Plan) (n : Mapping) (script : List Line) (j : Joint) (k : ℕ) (l : LinkElem) →
        IsSound p m → All (IsPairLine p (links_of p q)) script → IsBegunPairOf p m q n (links_of p q) script j → slice_get (links_of p q) k ≡ Some l →
        (left : List (List ℤ)) × (values_taken l.out_elem (history_of (side_of one j)) ≡ values_sent l.in_elem (history_of (side_of two j)) ++ left) }
{}
