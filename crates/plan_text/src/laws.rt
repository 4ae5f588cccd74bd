//! What a header lists.

ghost use Rattle.std.specs.Prelude.{◌≡◌, [], None, Some};
ghost use Rattle.plan_definitions.specs.Common.{TypeTable, Component};
ghost use Rattle.plan_text.specs.Clashes.{HaveNamesOfTheirOwn, IsFirstClash};
ghost use Rattle.plan_text.specs.Listing.{first_clash, listed};
ghost use Rattle.plan_text.specs.Targets.{Letters};

/// If no names clash, each name is listed once.
pub fn without_a_clash_each_name_stands_once()
    ensures { (types : TypeTable) (c : Component) → first_clash [] (listed types c) ≡ None → HaveNamesOfTheirOwn (listed types c) }
{}

/// A name that clashes is that of two different calls, and no two calls have one name before the later of them.
pub fn a_clash_is_of_two_calls()
    ensures { (types : TypeTable) (c : Component) (name : Letters) → first_clash [] (listed types c) ≡ Some name → IsFirstClash (listed types c) name }
{}
