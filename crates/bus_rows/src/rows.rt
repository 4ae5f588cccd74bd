//! Worked rows, by computing.

ghost use Rattle.std.specs.Prelude.{◌≡◌, true, false};
ghost use Rattle.bus_semantics.specs.Common.{fits, is_legal, IsQuiet, IsAtRest, history_of, IsRunOf, IsSound, Spells};
ghost use Rattle.bus_semantics.specs.declared.version.Version.TheVariants.{One, Two};
ghost use Rattle.bus_rows.specs.RowParts.{IsRefusedBy, PartsIntoPasts, ten_ticks};
ghost use Rattle.bus_rows.specs.OneWriter.{one_writer, one_task, ten_ticks_and_run, written_then_read, written_then_read_text, until_look, six_read};
ghost use Rattle.bus_rows.specs.Queues.{one_queue, one_event, three_sends, third_lost, third_lost_text, two_sent, third_accepted, until_take, oldest_overwritten, loss_untold, two_queues};
ghost use Rattle.bus_rows.specs.Queues.{two_events, two_sends, one_full, one_full_text, until_taken, blocked_for_all};
ghost use Rattle.bus_rows.specs.ImplicitAccess.{early_reader, two_tasks, fetched_kept, fetched_kept_text, until_written, read_again, late_publisher, published_late, published_late_text};
ghost use Rattle.bus_rows.specs.ImplicitAccess.{until_between, seen_at_once, first_published};
ghost use Rattle.bus_rows.specs.SoundFacts.{ListsSound, LacksOnly};
ghost use Rattle.bus_rows.specs.CoherentLists.{writes_both, writes_second, two_lists, listed_twice, until_published, until_fetched, both_fetched, both_fetched_text, until_second_fetched};
ghost use Rattle.bus_rows.specs.CoherentLists.{second_fetched, second_fetched_text, fetched_at_two_moments, both_seen, both_published, fetched_too_few, fetched_alone, published_first};
ghost use Rattle.bus_rows.specs.CoherentLists.{published_none, published_crossed, published_alone, publication_too_short, marks_past_the_list, foreign_list, list_of_writes};
ghost use Rattle.bus_rows.specs.AreaHeld.{two_counters, two_cores, both_counted, both_counted_text, while_held, second_enters};
ghost use Rattle.bus_rows.specs.OutsideCall.{outside_caller, server_task, asks_and_results, served_once, served_once_text, asked_once, second_accepted, until_served, results_crossed};
ghost use Rattle.bus_rows.specs.DirectCall.{direct_server, caller_task, served_within, served_within_text, until_returned, answered_early, until_ended, answered_wrongly};
ghost use Rattle.bus_rows.specs.QueuedCalls.{two_clients, clients_and_server, served_in_turn, served_in_turn_text, until_both_asked, later_first, heard_early, until_second_served, told_early};
ghost use Rattle.bus_rows.specs.ModeSwitch.{one_machine, three_cores, switch_and_run, switched, switched_text, switched_text_by_names, until_exit, transition_early, until_closed};
ghost use Rattle.bus_rows.specs.ModeSwitch.{disabled_admitted, until_settled, disabled_remembered};
ghost use Rattle.bus_rows.specs.TwoMachines.{two_machines, observer_task, two_switches, both_switched, both_switched_text, until_second_stable, stable_early, until_first_seen, machines_crossed};
ghost use Rattle.bus_rows.specs.WaitingSwitch.{waiting, not_waiting, user_and_boss_tasks, run_and_ticks, waited, waited_text, until_last_write, went_on, went_on_text, until_first_write, exit_early};
ghost use Rattle.bus_rows.specs.AcknowledgedSwitch.{one_provider, provider_task, only_run, acknowledged, acknowledged_text, until_full, switch_accepted, acknowledged_early, begun_again};

/// Ten ticks, then a write and a read: the session is a whole legal run of its script, and has its text. A read of another
/// value than the last one that was written is refused, and so is the word `idle` before the writer has started.
pub fn ten_ticks_write_then_read()
    ensures runs { IsRunOf one_writer one_task ten_ticks_and_run written_then_read }
    ensures spelled { Spells One one_writer written_then_read_text written_then_read }
    ensures legal { is_legal one_writer (history_of written_then_read) ≡ true }
    // The plan is one that a description can have, so what is said of sound plans is said of something.
    ensures sound { IsSound one_writer one_task }
    ensures quiet { IsQuiet one_writer (history_of written_then_read) }
    ensures parted { PartsIntoPasts one_writer written_then_read }
    ensures wrong { IsRefusedBy one_writer 7 until_look six_read }
    ensures early { IsAtRest one_writer one_task (history_of ten_ticks) → ⊥ }
{}

/// A queue of two loses the third value that is sent: its sender is told, and its receiver is told with the oldest value, which
/// stays. That the third value finds room, or overwrites the oldest one, or is lost untold, is refused.
pub fn queue_of_two_loses_the_third()
    ensures runs { IsRunOf one_queue one_event three_sends third_lost }
    ensures spelled { Spells One one_queue third_lost_text third_lost }
    ensures legal { is_legal one_queue (history_of third_lost) ≡ true }
    ensures sound { IsSound one_queue one_event }
    ensures quiet { IsQuiet one_queue (history_of third_lost) }
    ensures parted { PartsIntoPasts one_queue third_lost }
    ensures wrong { IsRefusedBy one_queue 8 two_sent third_accepted }
    ensures overwritten { IsRefusedBy one_queue 8 until_take oldest_overwritten }
    ensures untold { IsRefusedBy one_queue 8 until_take loss_untold }
{}

/// Of two receivers with queues of two and of one, the full queue alone loses the second value. That the other one loses it too
/// is refused.
pub fn two_receivers_one_full()
    ensures runs { IsRunOf two_queues two_events two_sends one_full }
    ensures spelled { Spells One two_queues one_full_text one_full }
    ensures legal { is_legal two_queues (history_of one_full) ≡ true }
    ensures sound { IsSound two_queues two_events }
    ensures quiet { IsQuiet two_queues (history_of one_full) }
    ensures parted { PartsIntoPasts two_queues one_full }
    ensures wrong { IsRefusedBy two_queues 8 until_taken blocked_for_all }
{}

/// An implicit read gives the value that was fetched at the start of the activation, whatever is written meanwhile. That a later
/// use reads the element again is refused: the program then asks for something else.
pub fn implicit_read_keeps_the_fetched_value()
    ensures runs { IsRunOf early_reader two_tasks ten_ticks_and_run fetched_kept }
    ensures spelled { Spells One early_reader fetched_kept_text fetched_kept }
    ensures legal { is_legal early_reader (history_of fetched_kept) ≡ true }
    ensures sound { IsSound early_reader two_tasks }
    ensures quiet { IsQuiet early_reader (history_of fetched_kept) }
    ensures parted { PartsIntoPasts early_reader fetched_kept }
    ensures wrong { IsRefusedBy early_reader 6 until_written read_again }
{}

/// What is written implicitly is published at the end of the activation, and of one element the last value. That a reader sees it
/// before, or that the first value is published, is refused.
pub fn implicit_write_is_published_at_the_end()
    ensures runs { IsRunOf late_publisher two_tasks ten_ticks_and_run published_late }
    ensures spelled { Spells One late_publisher published_late_text published_late }
    ensures legal { is_legal late_publisher (history_of published_late) ≡ true }
    ensures sound { IsSound late_publisher two_tasks }
    ensures quiet { IsQuiet late_publisher (history_of published_late) }
    ensures parted { PartsIntoPasts late_publisher published_late }
    ensures wrong { IsRefusedBy late_publisher 7 until_between seen_at_once }
    ensures first { IsRefusedBy late_publisher 6 until_between first_published }
{}

/// The elements of a coherent list that an activation wrote are published together at its end, and those of another's list are
/// fetched together at its start. That they are fetched as of two moments, or some of their words, or one by one, is refused; so
/// is that one of them is published, or none, or each with the other's value, or each alone. A plan whose list names an element
/// twice is not sound (`twice`).
pub fn coherent_list_is_fetched_at_one_moment()
    ensures runs { IsRunOf (two_lists writes_both) one_task ten_ticks_and_run both_fetched }
    ensures spelled { Spells One (two_lists writes_both) both_fetched_text both_fetched }
    ensures legal { is_legal (two_lists writes_both) (history_of both_fetched) ≡ true }
    ensures sound { IsSound (two_lists writes_both) one_task }
    ensures twice { LacksOnly ListsSound listed_twice one_task }
    ensures quiet { IsQuiet (two_lists writes_both) (history_of both_fetched) }
    ensures parted { PartsIntoPasts (two_lists writes_both) both_fetched }
    ensures wrong { IsRefusedBy (two_lists writes_both) 7 until_fetched fetched_at_two_moments }
    ensures too_few { IsRefusedBy (two_lists writes_both) 7 until_fetched fetched_too_few }
    ensures one_by_one { IsRefusedBy (two_lists writes_both) 6 until_fetched fetched_alone }
    ensures first { IsRefusedBy (two_lists writes_both) 6 until_published published_first }
    ensures unpublished { IsRefusedBy (two_lists writes_both) 6 until_published published_none }
    ensures crossed { IsRefusedBy (two_lists writes_both) 6 until_published published_crossed }
    ensures alone { IsRefusedBy (two_lists writes_both) 6 until_published published_alone }
    ensures short { fits (two_lists writes_both) publication_too_short ≡ false }
    ensures past { fits (two_lists writes_both) marks_past_the_list ≡ false }
    ensures foreign { fits (two_lists writes_both) foreign_list ≡ false }
    ensures other_kind { fits (two_lists writes_both) list_of_writes ≡ false }
{}

/// Of a coherent list only what was written is published, marked; the fetch of another's list gives the initial value of the rest.
/// That the fetch gives what it would after a publication of both, or that both are published, is refused.
pub fn coherent_list_publishes_what_was_written()
    ensures runs { IsRunOf (two_lists writes_second) one_task ten_ticks_and_run second_fetched }
    ensures spelled { Spells One (two_lists writes_second) second_fetched_text second_fetched }
    ensures legal { is_legal (two_lists writes_second) (history_of second_fetched) ≡ true }
    ensures sound { IsSound (two_lists writes_second) one_task }
    ensures quiet { IsQuiet (two_lists writes_second) (history_of second_fetched) }
    ensures parted { PartsIntoPasts (two_lists writes_second) second_fetched }
    ensures wrong { IsRefusedBy (two_lists writes_second) 7 until_second_fetched both_seen }
    ensures marked { IsRefusedBy (two_lists writes_second) 6 until_published both_published }
{}

/// An area that one runnable has entered is entered by another one only when it was left. That both are in it is refused.
pub fn area_is_held_until_it_is_left()
    ensures runs { IsRunOf two_counters two_cores ten_ticks_and_run both_counted }
    ensures spelled { Spells One two_counters both_counted_text both_counted }
    ensures legal { is_legal two_counters (history_of both_counted) ≡ true }
    ensures sound { IsSound two_counters two_cores }
    ensures quiet { IsQuiet two_counters (history_of both_counted) }
    ensures parted { PartsIntoPasts two_counters both_counted }
    ensures wrong { IsRefusedBy two_counters 10 while_held second_enters }
{}

/// The environment calls a server, which has one call of it at a time, and takes the result once. That a second call is accepted
/// meanwhile, or that its result is given, is refused.
pub fn environment_asks_a_server()
    ensures runs { IsRunOf outside_caller server_task asks_and_results served_once }
    ensures spelled { Spells One outside_caller served_once_text served_once }
    ensures legal { is_legal outside_caller (history_of served_once) ≡ true }
    ensures sound { IsSound outside_caller server_task }
    ensures quiet { IsQuiet outside_caller (history_of served_once) }
    ensures parted { PartsIntoPasts outside_caller served_once }
    ensures wrong { IsRefusedBy outside_caller 9 asked_once second_accepted }
    ensures crossed { IsRefusedBy outside_caller 9 until_served results_crossed }
{}

/// A direct server runs between its caller's call and its caller's next entry. That the caller goes on before the server has
/// ended, or hears another value than was returned, is refused.
pub fn direct_server_runs_within_its_call()
    ensures runs { IsRunOf direct_server caller_task ten_ticks_and_run served_within }
    ensures spelled { Spells One direct_server served_within_text served_within }
    ensures legal { is_legal direct_server (history_of served_within) ≡ true }
    ensures sound { IsSound direct_server caller_task }
    ensures quiet { IsQuiet direct_server (history_of served_within) }
    ensures parted { PartsIntoPasts direct_server served_within }
    ensures wrong { IsRefusedBy direct_server 6 until_returned answered_early }
    ensures crossed { IsRefusedBy direct_server 9 until_ended answered_wrongly }
{}

/// A server with a queue serves its calls in their order; a client that waits goes on with the answer, and one that does not wait
/// is told when its result is there. That the later call is served first, or that a client hears or is told before the server
/// has returned to it, is refused.
pub fn server_serves_in_the_order_of_calls()
    ensures runs { IsRunOf two_clients clients_and_server ten_ticks_and_run served_in_turn }
    ensures spelled { Spells One two_clients served_in_turn_text served_in_turn }
    ensures legal { is_legal two_clients (history_of served_in_turn) ≡ true }
    ensures sound { IsSound two_clients clients_and_server }
    ensures quiet { IsQuiet two_clients (history_of served_in_turn) }
    ensures parted { PartsIntoPasts two_clients served_in_turn }
    ensures wrong { IsRefusedBy two_clients 9 until_both_asked later_first }
    ensures early { IsRefusedBy two_clients 9 until_both_asked heard_early }
    ensures told { IsRefusedBy two_clients 13 until_second_served told_early }
{}

/// A mode switch disables what the next mode disables, and then starts what it owes on exit, on transition and on entry, each
/// when the one before has ended. Its text names modes by number in version one, by name in version two. That a phase comes
/// before the last one is done, that a disabled event is admitted, or that it starts its runnable later, is refused.
pub fn mode_switch_on_three_cores()
    ensures runs { IsRunOf one_machine three_cores switch_and_run switched }
    ensures spelled { Spells One one_machine switched_text switched }
    ensures named { Spells Two one_machine switched_text_by_names switched }
    ensures legal { is_legal one_machine (history_of switched) ≡ true }
    ensures sound { IsSound one_machine three_cores }
    ensures quiet { IsQuiet one_machine (history_of switched) }
    ensures parted { PartsIntoPasts one_machine switched }
    ensures wrong { IsRefusedBy one_machine 11 until_exit transition_early }
    ensures disabled { IsRefusedBy one_machine 12 until_closed disabled_admitted }
    ensures remembered { IsRefusedBy one_machine 13 until_settled disabled_remembered }
{}

/// Of two machines that switch, the one settles while the other waits for what it owes, and each mode port gives the mode of
/// its own machine. That the other machine settles too, or that the modes are crossed, is refused.
pub fn two_machines_go_on_apart()
    ensures runs { IsRunOf two_machines observer_task two_switches both_switched }
    ensures spelled { Spells Two two_machines both_switched_text both_switched }
    ensures legal { is_legal two_machines (history_of both_switched) ≡ true }
    ensures sound { IsSound two_machines observer_task }
    ensures quiet { IsQuiet two_machines (history_of both_switched) }
    ensures parted { PartsIntoPasts two_machines both_switched }
    ensures wrong { IsRefusedBy two_machines 11 until_second_stable stable_early }
    ensures crossed { IsRefusedBy two_machines 11 until_first_seen machines_crossed }
{}

/// A machine that waits leaves its mode when the activation has ended that the next mode disables. That it leaves before, even
/// after the activation's last write, is refused.
pub fn mode_switch_that_waits()
    ensures runs { IsRunOf waiting user_and_boss_tasks run_and_ticks waited }
    ensures spelled { Spells Two waiting waited_text waited }
    ensures legal { is_legal waiting (history_of waited) ≡ true }
    ensures sound { IsSound waiting user_and_boss_tasks }
    ensures quiet { IsQuiet waiting (history_of waited) }
    ensures parted { PartsIntoPasts waiting waited }
    ensures wrong { IsRefusedBy waiting 11 until_last_write exit_early }
{}

/// A machine that does not wait goes through its switch while the activation runs that the next mode disables. Of a machine that
/// waits, the same first step is refused.
pub fn asynchronous_mode_switch()
    ensures runs { IsRunOf not_waiting user_and_boss_tasks run_and_ticks went_on }
    ensures spelled { Spells Two not_waiting went_on_text went_on }
    ensures legal { is_legal not_waiting (history_of went_on) ≡ true }
    ensures sound { IsSound not_waiting user_and_boss_tasks }
    ensures quiet { IsQuiet not_waiting (history_of went_on) }
    ensures parted { PartsIntoPasts not_waiting went_on }
    ensures wrong { IsRefusedBy waiting 11 until_first_write exit_early }
{}

/// A machine with a queue of one refuses a second switch that waits to begin, and its provider is told after each switch, and not
/// when the machine settles first. That the full queue accepts a switch, that the provider is told before, or that an InitEvent
/// starts its runnable twice, is refused.
pub fn acknowledged_mode_switch()
    ensures runs { IsRunOf one_provider provider_task only_run acknowledged }
    ensures spelled { Spells Two one_provider acknowledged_text acknowledged }
    ensures legal { is_legal one_provider (history_of acknowledged) ≡ true }
    ensures sound { IsSound one_provider provider_task }
    ensures quiet { IsQuiet one_provider (history_of acknowledged) }
    ensures parted { PartsIntoPasts one_provider acknowledged }
    ensures wrong { IsRefusedBy one_provider 11 until_full switch_accepted }
    ensures early { IsRefusedBy one_provider 13 until_full acknowledged_early }
    ensures again { IsRefusedBy one_provider 13 acknowledged begun_again }
{}
