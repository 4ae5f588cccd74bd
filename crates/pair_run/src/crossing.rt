//! What crosses from the first node to the second after a run line of the first.

ghost use Rattle.std.specs.Prelude.{◌≡◌, ◌≢◌, ◌<◌, [], length, slice_get, Some, true};
ghost use Rattle.bus_semantics.specs.Common.{words_of, wish_fits, plan_of, to_send};
ghost use Rattle.bus_semantics.specs.declared.entries.Actor.TheVariants.{Env};
ghost use Rattle.core_runtime.specs.Nodes.{NodeState};
ghost use Rattle.signal_link.specs.Common.{AreOfWords, IsGood, fresh};
ghost use Rattle.signal_link.specs.declared.link_elem.LinkElem.{LinkElem};
ghost use Rattle.pair_run.specs.declared.pair.PairRun.TheVariants.{LinkFailed};
ghost use Rattle.pair_run.specs.Crossing.{Crosses, Drains, Sends, held_in};
ghost use Rattle.pair_run.specs.Linked.{links_of};
ghost use Rattle.pair_run.specs.Running.{LinkFaultsAfter, SinkFaultsAfter};
ghost use Rattle.pair_run.specs.Standing.{CarryBoth, LinkAfter, Stand};

use crate::pair::{PairRun, lines_of_one, lines_of_two};
use bus_semantics::{Deed, Wish};
use core_runtime::Node;
use rte_text::{LineBuf, Put, Sink};
use rte_value::Value;
use script_run::make_call;
use signal_link::{Link, LinkElem, Unframer, carry};

/// So many values a queue holds at most.
const MOST_HELD: u32 = 1_024;

/// The link of this number.
fn link_at(unframer: &Unframer, number: u16) -> LinkElem
    requires { number < length unframer.now.links }
    ensures { slice_get unframer.now.links number ≡ Some result }
{
    unframer.links()[number as usize]
}

/// Carries a value over the link and sends it on the second node.
fn pass<K: Sink, L: Link>(
    two: &mut Node,
    number: u16,
    value: &Value,
    way: &mut L,
    unframer: &mut Unframer,
    out: &mut K,
    line: &mut LineBuf,
) -> PairRun
    requires kept { unframer.old ≡ fresh unframer.old.links }
    requires of_words { AreOfWords unframer.old.links }
    requires good { IsGood unframer.old.links number (words_of value.now) }
    requires sent { (l : LinkElem) → slice_get unframer.old.links number ≡ Some l →
        wish_fits (plan_of two.old.plan) Env (to_send l.in_elem (words_of value.now)) ≡ true }
    requires way { L.way way.old ≡ [] }
    ensures plan { two.new.plan ≡ two.old.plan }
    ensures mapping { two.new.mapping ≡ two.old.mapping }
    ensures carries { (l : LinkElem) (one : NodeState) → slice_get unframer.old.links number ≡ Some l →
        CarryBoth (Sends l value.now) result one one two.old two.new (K.told out.old) (K.told out.new) }
    ensures after { LinkAfter result (L.way way.new) unframer.old unframer.new }
    ensures sink { SinkFaultsAfter result (K.faults out.old) (K.faults out.new) }
    ensures link { LinkFaultsAfter result (L.faults way.old) (L.faults way.new) }
    ensures sound_link { L.never_fails way.old ≡ true → result ≢ LinkFailed }
    ensures never_fails { L.never_fails way.new ≡ L.never_fails way.old }
{
    let Some(arrived) = carry(number, value, way, unframer) else {
        return PairRun::LinkFailed;
    };
    let wish = Wish::Send {
        elem: link_at(unframer, arrived.link).in_elem,
        value: arrived.value,
    };
    let w = lines_of_two();
    match make_call(two, &wish, w, out, line).1 {
        Put::Done => PairRun::Finished,
        Put::Failed => PairRun::Failed,
    }
}

/// The value that a Receive took, if it took one: with code 0, or with 64, where values were lost before it.
fn held_in(deed: &Deed) -> Option<Value>
    ensures { result ≡ held_in deed.now }
{
    match deed {
        Deed::Receive { code, value, .. } if *code == 0 || *code == 64 => Some(*value),
        _ => None,
    }
}

/// Receives from a linked element of the first node until no value is held there, and passes each value on at once. A value that the second
/// node does not accept is lost there.
fn drain<K: Sink, L: Link>(
    one: &mut Node,
    two: &mut Node,
    number: u16,
    way: &mut L,
    unframer: &mut Unframer,
    out: &mut K,
    line: &mut LineBuf,
) -> PairRun
    requires stand { Stand one.old two.old }
    requires unframer { unframer.old ≡ fresh (links_of (plan_of one.old.plan) (plan_of two.old.plan)) }
    requires way { L.way way.old ≡ [] }
    requires number { number < length unframer.old.links }
    ensures plan_one { one.new.plan ≡ one.old.plan }
    ensures plan_two { two.new.plan ≡ two.old.plan }
    ensures after { LinkAfter result (L.way way.new) unframer.old unframer.new }
    ensures sound_link { L.never_fails way.old ≡ true → result ≢ LinkFailed }
    ensures never_fails { L.never_fails way.new ≡ L.never_fails way.old }
    ensures carries { (l : LinkElem) → slice_get unframer.old.links number ≡ Some l →
        CarryBoth (Drains l) result one.old one.new two.old two.new (K.told out.old) (K.told out.new) }
    ensures sink { SinkFaultsAfter result (K.faults out.old) (K.faults out.new) }
    ensures link { LinkFaultsAfter result (L.faults way.old) (L.faults way.new) }
{
    let elem = link_at(unframer, number).out_elem;
    let w = lines_of_one();
    for i in 0..MOST_HELD + 1 {
        let (entry, put) = make_call(one, &Wish::Receive { elem }, w, out, line);
        match put {
            Put::Done => {}
            Put::Failed => return PairRun::Failed,
        }
        let Some(value) = held_in(&entry.deed) else {
            return PairRun::Finished;
        };
        match pass(two, number, &value, way, unframer, out, line) {
            PairRun::Finished => {}
            stopped => return stopped,
        }
    }
    // No queue holds more.
    PairRun::Finished
}

/// Drains the links, one after the other.
pub(crate) fn cross<K: Sink, L: Link>(
    one: &mut Node,
    two: &mut Node,
    way: &mut L,
    unframer: &mut Unframer,
    out: &mut K,
    line: &mut LineBuf,
) -> PairRun
    requires stand { Stand one.old two.old }
    requires unframer { unframer.old ≡ fresh (links_of (plan_of one.old.plan) (plan_of two.old.plan)) }
    requires way { L.way way.old ≡ [] }
    ensures plan_one { one.new.plan ≡ one.old.plan }
    ensures plan_two { two.new.plan ≡ two.old.plan }
    ensures after { LinkAfter result (L.way way.new) unframer.old unframer.new }
    ensures sound_link { L.never_fails way.old ≡ true → result ≢ LinkFailed }
    ensures never_fails { L.never_fails way.new ≡ L.never_fails way.old }
    ensures carries { CarryBoth (Crosses unframer.old.links) result one.old one.new two.old two.new (K.told out.old) (K.told out.new) }
    ensures sink { SinkFaultsAfter result (K.faults out.old) (K.faults out.new) }
    ensures link { LinkFaultsAfter result (L.faults way.old) (L.faults way.new) }
{
    let count = unframer.links().len();
    for number in 0..count {
        match drain(one, two, number as u16, way, unframer, out, line) {
            PairRun::Finished => {}
            stopped => return stopped,
        }
    }
    PairRun::Finished
}
