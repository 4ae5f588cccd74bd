//! The keys that run.

ghost use Rattle.std.specs.Prelude.{◌≡◌, ◌<◌, length, slice_set, not};
ghost use Rattle.std.specs.List.{list_all};

use crate::Memory;
use crate::walk::is_over;
use bus_semantics::{Actor, BusPlan, Entry};
use place_set::PlaceSet;
use rte_value::ActKey;
use std::alloc::Global;

/// The keys of which an activation runs along a trace: a plain key by its runnable, and the key of a server without a queue by the point that
/// it serves. Only `new` takes memory.
#[derive(Drop)]
pub struct Runners {
    plain: PlaceSet,
    direct: PlaceSet,
}

/// Puts a place into a set, or takes it out.
fn put(set: &mut PlaceSet, at: u32, inside: bool)
    requires { at < length set.old }
    ensures { set.new ≡ slice_set set.old at inside }
{
    if inside {
        set.insert(at as usize);
    } else {
        set.remove(at as usize);
    }
}

/// Whether no place is in the set.
fn is_empty(set: &mut PlaceSet) -> bool
    ensures same { set.new ≡ set.old }
    ensures empty { result ≡ list_all not set.old }
{
    set.next(0).is_none()
}

impl Runners {
    ghost use Rattle.std.specs.Prelude.{◌≡◌, [], ◌∷◌, true, IfOk};
    ghost use Rattle.bus_semantics.specs.declared.script.Mapping.{Mapping};
    ghost use Rattle.bus_semantics.specs.Fitting.{fits};
    ghost use Rattle.bus_semantics.specs.History.{History};
    ghost use Rattle.bus_semantics.specs.Plan.{Plan, plan_of};
    ghost use Rattle.bus_semantics.specs.Rest.{none_runs};
    ghost use Rattle.bus_semantics.specs.Sound.{IsSound};
    ghost use Rattle.trace_walks.specs.Runners.{CanNote, HasPlace, RunnersStand, with_key};

    /// The runners before a trace: none runs. An error says that there was no memory.
    pub fn new(alloc: Global, p: &BusPlan) -> Result<Runners, Memory>
        ensures { IfOk result (λ runners. RunnersStand (plan_of p.now) [] runners) }
    {
        let plain = PlaceSet::empty(alloc, p.runnables.items().len())?;
        let direct = PlaceSet::empty(alloc, p.points.items().len())?;
        Ok(Runners { plain, direct })
    }

    /// Notes whether an activation of the key runs.
    fn note_key(&mut self, key: ActKey, runs: bool)
        requires { HasPlace self.old key }
        ensures { self.new ≡ with_key key runs self.old }
    {
        match key.point {
            None => put(&mut self.plain, key.runnable, runs),
            Some(point) => put(&mut self.direct, point, runs),
        }
    }

    /// An entry that fits has been made, and the runners stand for the history with it: an activation of its key runs, unless the entry is
    /// its last.
    pub fn note(&mut self, entry: &Entry)
        requires can { CanNote self.old entry.now }
        ensures { (p : Plan) (m : Mapping) (h : History) → IsSound p m → fits p entry.now ≡ true → RunnersStand p h self.old → RunnersStand p (entry.now ∷ h) self.new }
    {
        if let Actor::Act(key) = entry.actor {
            self.note_key(key, !is_over(&entry.deed));
        }
    }

    /// Whether no activation of any key runs. It looks at one word of bits, and then at one more for each 4,096 keys.
    pub fn none_runs(&mut self) -> bool
        ensures same { self.new ≡ self.old }
        ensures none { (p : Plan) (m : Mapping) (h : History) → IsSound p m → RunnersStand p h self.old → result ≡ none_runs p h }
    {
        is_empty(&mut self.plain) && is_empty(&mut self.direct)
    }
}
