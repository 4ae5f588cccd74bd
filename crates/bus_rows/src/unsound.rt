//! Plans that are not sound, by computing.

ghost use Rattle.std.specs.Prelude.{◌≡◌, [], ◌∷◌, codes, Some, None};
ghost use Rattle.bus_semantics.specs.declared.script.Mapping.{Mapping};
ghost use Rattle.bus_semantics.specs.Common.{Plan, IsSound, WaitOrder};
ghost use Rattle.bus_rows.specs.SoundFacts.{NamesDistinct, PortsTogether, PointsFit, AccessesSound, AreasRise, ListsSound, BundlesFit, broken_facts, LacksOnly, LacksOrder};
ghost use Rattle.bus_rows.specs.AreaHeld.{two_cores};
ghost use Rattle.bus_rows.specs.OneWriter.{one_task};
ghost use Rattle.bus_rows.specs.Queues.{one_event};
ghost use Rattle.bus_rows.specs.WaitingSwitch.{user_and_boss_tasks};
ghost use Rattle.bus_rows.specs.UnsoundPlans.{nested_areas, two_points, switch_of_item, three_elements, no_task, in_one_bundle, writer_lists, servers_that_call, a_task_each, in_one_task};

/// A plan with its mapping is sound exactly if no fact that is computed is broken and the tasks have an order.
pub fn sound_plans_break_no_fact()
    ensures sound { (p : Plan) (m : Mapping) → broken_facts p m ≡ [] → WaitOrder p m → IsSound p m }
    ensures none { (p : Plan) (m : Mapping) → IsSound p m → broken_facts p m ≡ [] }
{}

/// Ten plans with their mappings, each of which lacks one fact to be sound, and sound ones that differ from them in one thing.
/// A runnable enters an area again within itself (`again`). Two runnables nest two areas, the second one against their numbers
/// (`crossed`); both as numbered is sound (`nested`). The two points of a runnable have one name (`one_name`); two names are
/// sound (`two_names`). A point without a server has 17 arguments (`seventeen`); 16 are sound (`sixteen`). An access for
/// switching names an item (`item`); none is sound (`no_item`). An element of another port stands between two elements of one
/// port (`apart`); after both it is sound (`together`). Groups that no list connects are in one bundle (`bundled`). A runnable has a
/// list that the plan has not (`listed`); without it it is sound (`unlisted`). Two servers with queues call each other from a task each, and wait
/// (`circle`); if the second one's call reaches no server it is sound (`chain`). With both servers in one task
/// the first one waits for its own task (`itself`).
pub fn plans_that_lack_one_fact_are_not_sound()
    ensures nested { IsSound (nested_areas 0 1) two_cores }
    ensures again { LacksOnly AreasRise (nested_areas 0 0) two_cores }
    ensures crossed { LacksOnly AreasRise (nested_areas 1 0) two_cores }
    ensures two_names { IsSound (two_points (codes "d.op") 1) one_event }
    ensures one_name { LacksOnly NamesDistinct (two_points (codes "c.op") 1) one_event }
    ensures sixteen { IsSound (two_points (codes "d.op") 16) one_event }
    ensures seventeen { LacksOnly PointsFit (two_points (codes "d.op") 17) one_event }
    ensures no_item { IsSound (switch_of_item 0) user_and_boss_tasks }
    ensures item { LacksOnly AccessesSound (switch_of_item 1) user_and_boss_tasks }
    ensures together { IsSound (three_elements (codes "p.w")) no_task }
    ensures apart { LacksOnly PortsTogether (three_elements (codes "o.w")) no_task }
    ensures bundled { LacksOnly BundlesFit in_one_bundle no_task }
    ensures unlisted { IsSound (writer_lists []) one_task }
    ensures listed { LacksOnly ListsSound (writer_lists (0 ∷ [])) one_task }
    ensures chain { IsSound (servers_that_call None) a_task_each }
    ensures circle { LacksOrder (servers_that_call (Some 0)) a_task_each }
    ensures itself { LacksOrder (servers_that_call None) in_one_task }
{}
