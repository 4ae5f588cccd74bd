//! A bench of one thread.

ghost use Rattle.std.specs.Prelude.{◌≡◌, ◌<◌, ◌-◌, ◌++◌, suc, [], ◌∷◌, length};
ghost use Rattle.bus_semantics.specs.Common.{vec_capacity, plan_of, wanted_of, event_of};
ghost use Rattle.bus_laws.specs.Common.{Entry};
ghost use Rattle.object_kinds.specs.Common.{acted};
ghost use Rattle.port_objects.specs.Objects.{ArePlans};
ghost use Rattle.port_objects.specs.Plans.{HasObjects};
ghost use Rattle.port_objects.specs.Benches.{IsAsked, ActedOn};

use crate::among::act_among;
use crate::bench::{Answered, Bench, Benched};
use crate::object::Object;
use bus_semantics::{Actor, BusPlan, Deed, Entry, Stamped, Wish};
use object_kinds::Filled;
use std::marker::Model;

/// All objects of a plan, which one thread has to itself. It tells its objects and its next stamp, which begins
/// at 0, and not its work, and never answers `Contended`.
#[derive(Drop)]
pub struct PlainBench<'a> {
    plan: &'a BusPlan,
    objects: Vec<Object>,
    room: u32,
    next: u64,
}

impl<'a> Model for PlainBench<'a> {
    ghost use Rattle.std.specs.Prelude.{◌≡◌, ◌+◌, ◌^◌, ◌≤◌};
    ghost use Rattle.bus_semantics.specs.Plan.{plan_of};
    ghost use Rattle.port_objects.specs.Objects.{ArePlans};
    ghost use Rattle.port_objects.specs.Plans.{HasObjects};
    ghost use Rattle.port_objects.specs.Benches.{Plain};
    ghost use Rattle.runnable_lang.specs.contracts.stmt.Stmt as statements;
    ghost use Rattle.runnable_lang.specs.contracts.stmt.Expr as expressions;
    ghost use Rattle.std.specs.Coded.{codes};

    ghost Value = { Plain };

    ghost coded = { Prim.hlevel (codes, statements.the_row.coded, expressions.the_row.coded) };

    ghost view = { λ b. record { plan = b.plan.now; objects = b.objects.items; room = b.room; next = b.next } };

    ghost invariant = { λ b. HasObjects (plan_of b.plan.now) × ArePlans (plan_of b.plan.now) b.objects.items × (b.next + b.room ≤ 2 ^ 32) };
}

impl<'a> PlainBench<'a> {
    /// A bench of these objects of the plan, each at its number, with room for so many entries. It takes no memory.
    pub fn new(plan: &'a BusPlan, objects: Vec<Object>, room: u32) -> PlainBench<'a>
        requires sound { HasObjects (plan_of plan.now) }
        requires planned { ArePlans (plan_of plan.now) objects.items }
        ensures { result ≡ record { plan = plan.now; objects = objects.items; room = room; next = 0 } }
    {
        PlainBench {
            plan,
            objects,
            room,
            next: 0,
        }
    }

    /// Its objects, by number.
    pub fn objects(&self) -> &[Object]
        ensures objects { result.now ≡ self.now.objects }
        ensures planned { ArePlans (plan_of self.now.plan) result.now }
    {
        self.objects.as_slice()
    }

    /// Its objects, given back; they are the plan's. It takes no memory.
    pub fn into_objects(self) -> Vec<Object>
        ensures objects { result.items ≡ self.entry.objects }
        ensures planned { ArePlans (plan_of self.entry.plan) result.items }
    {
        self.objects
    }

    /// Takes the next stamp.
    fn take_stamp(&mut self) -> u64
        requires { 0 < self.old.room }
        ensures stamp { result ≡ self.old.next }
        ensures bench { self.new ≡ record { plan = self.old.plan; objects = self.old.objects; room = self.old.room - 1; next = suc self.old.next } }
    {
        let stamp = self.next;
        self.next += 1;
        self.room -= 1;
        stamp
    }

    /// Makes the entry of a wish on the object of this number, if one may come, behind the others in this list and with the next stamp,
    /// which is not taken yet. If none may come, what is written behind the others is no entry.
    fn act_behind(
        &mut self,
        object: u32,
        who: &Actor,
        wish: &Wish,
        made: &mut Vec<Stamped>,
    ) -> Filled
        requires asked { IsAsked (plan_of self.old.plan) object who.now (wanted_of wish.now) }
        requires space { length made.old.items < vec_capacity made.old }
        ensures plan { self.new.plan ≡ self.old.plan }
        ensures room { self.new.room ≡ self.old.room }
        ensures next { self.new.next ≡ self.old.next }
        ensures capacity { vec_capacity made.new ≡ vec_capacity made.old }
        ensures made { (e : Entry) × (made.new.items ≡ made.old.items ++ record { stamp = self.old.next; entry = e; event = event_of (wanted_of wish.now) } ∷ [])
            × ActedOn (plan_of self.old.plan) object who.now (wanted_of wish.now) self.old.objects self.new.objects (acted result e) }
    {
        let at = made.len();
        made.push_reserved(Stamped {
            stamp: self.next,
            entry: Entry {
                actor: Actor::Env,
                deed: Deed::Tick,
            },
            event: event_of(wish),
        });
        let stamped = &mut made[at];
        act_among(
            self.plan,
            &mut self.objects,
            object,
            who,
            wish,
            &mut stamped.entry,
        )
    }
}

/// The event that a wish names for its entry: of an Admit or End.
fn event_of(wish: &Wish) -> Option<u32>
    ensures { result ≡ event_of (wanted_of wish.now) }
{
    match wish {
        Wish::Admit { event } | Wish::End { event } => Some(*event),
        _ => None,
    }
}

impl<'a> Bench for PlainBench<'a> {
    ghost use Rattle.std.specs.Prelude.{Some, None};
    ghost use Rattle.bus_semantics.specs.Plan.{plan_of};

    type Home = ();

    ghost home = { λ b. tt };

    ghost plan = { λ b. plan_of b.plan };

    ghost told = { λ b. record { room = b.room; next = Some b.next; objects = Some b.objects; work = None } };

    fn act(&mut self, object: u32, who: &Actor, wish: &Wish) -> Benched {
        let mut entry = Entry {
            actor: *who,
            deed: Deed::Tick,
        };
        match act_among(self.plan, &mut self.objects, object, who, wish, &mut entry) {
            Filled::Done => Benched::Done(Stamped {
                stamp: self.take_stamp(),
                entry,
                event: event_of(wish),
            }),
            Filled::NotYet(shown) => Benched::NotYet(shown),
        }
    }

    fn stamp(&mut self, entry: &Entry) -> u64 {
        let _entry = entry;
        self.take_stamp()
    }

    fn act_into(
        &mut self,
        object: u32,
        who: &Actor,
        wish: &Wish,
        made: &mut Vec<Stamped>,
    ) -> Answered {
        let before = made.len();
        match self.act_behind(object, who, wish, made) {
            Filled::Done => {
                self.take_stamp();
                Answered::Made
            }
            Filled::NotYet(shown) => {
                made.truncate(before);
                Answered::NotYet(shown)
            }
        }
    }

    fn stamp_into(&mut self, who: &Actor, deed: &Deed, made: &mut Vec<Stamped>) {
        let stamp = self.take_stamp();
        made.push_reserved(Stamped {
            stamp,
            entry: Entry {
                actor: *who,
                deed: *deed,
            },
            event: None,
        });
    }
}
