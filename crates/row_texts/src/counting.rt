//! A bench that counts its work.

ghost use Rattle.std.specs.Prelude.{◌≡◌, ◌+◌, [], IfOk, min};
ghost use Rattle.bus_semantics.specs.Plan.{plan_of};
ghost use Rattle.port_objects.specs.Common.{ArePlans, HasObjects};

use bus_semantics::{Actor, BusPlan, Entry, Stamped, Wish};
use port_objects::{Bench, Benched, Object, PlainBench};
use std::alloc::{AllocError, Global};
use std::marker::Model;
use std::sync::ledger::{Blank, Book, Ledger, Share};

/// A plain bench that tells its work: the entries that it made, and how often it answered `NotYet`. It never answers
/// `Contended`.
///
/// The count of a ledger, which takes no bytes, goes on for ever; `not_yet` is that count up to what 64 bits count.
#[derive(Drop)]
pub struct CountingBench<'a, L: Ledger> {
    bench: PlainBench<'a>,
    made: Vec<Stamped>,
    not_yet: u64,
    looks: Book<L>,
    share: Share<L>,
}

impl<'a, L: Ledger> Model for CountingBench<'a, L> {
    ghost use Rattle.std.specs.Prelude.{◌≡◌, ◌+◌, ◌-◌, ◌^◌, ◌≤◌, length, min};
    ghost use Rattle.std.specs.Vec.{vec_capacity};
    ghost use Rattle.row_texts.specs.Counting.{Counting};
    ghost use Rattle.runnable_lang.specs.contracts.stmt.Stmt as statements;
    ghost use Rattle.runnable_lang.specs.contracts.stmt.Expr as expressions;
    ghost use Rattle.std.specs.Coded.{codes};

    ghost Value = { Counting };

    ghost coded = { Prim.hlevel (codes, statements.the_row.coded, expressions.the_row.coded) };

    ghost view = { λ b. record { bench = b.bench; made = b.made.items; not_yet = b.looks.total } };

    ghost invariant = { λ b. (b.bench.room + length b.made.items ≤ vec_capacity b.made) × (b.not_yet ≡ min b.looks.total (2 ^ 64 - 1)) × (b.share.parts ≡ 1) };
}

impl<'a, L: Ledger> CountingBench<'a, L> {
    /// A bench of these objects of the plan, each at its number, with room for so many entries and an empty account. The ledger is a
    /// new one of one part. The only error is that there is no memory for the account; no later call takes any.
    pub fn new(
        alloc: Global,
        plan: &'a BusPlan,
        objects: Vec<Object>,
        room: u32,
        blank: Blank,
    ) -> Result<CountingBench<'a, L>, AllocError>
        requires sound { HasObjects (plan_of plan.now) }
        requires planned { ArePlans (plan_of plan.now) objects.items }
        requires name { blank.name ≡ L.name }
        requires parts { blank.parts ≡ L.parts }
        requires one_part { blank.parts ≡ 1 }
        ensures { IfOk result (λ b. b ≡ record { bench = record { plan = plan.now; objects = objects.items; room = room; next = 0 }; made = []; not_yet = 0 }) }
    {
        let mut made = Vec::new(alloc);
        made.reserve(room as usize)?;
        let (looks, share) = blank.open::<L>();
        Ok(CountingBench {
            bench: PlainBench::new(plan, objects, room),
            made,
            not_yet: 0,
            looks,
            share,
        })
    }

    /// The entries that it made, the oldest first.
    pub fn made(&self) -> &[Stamped]
        ensures { result.now ≡ self.now.made }
    {
        self.made.as_slice()
    }

    /// How often it answered `NotYet`. More than 64 bits count are told as the most that they count.
    pub fn not_yet(&self) -> u64
        ensures { result ≡ min self.now.not_yet u64.MAX }
    {
        self.not_yet
    }
}

impl<'a, L: Ledger> Bench for CountingBench<'a, L> {
    ghost use Rattle.std.specs.Prelude.{Some};
    ghost use Rattle.bus_semantics.specs.Plan.{plan_of};

    type Home = ();

    ghost home = { λ b. tt };

    ghost plan = { λ b. plan_of b.bench.plan };

    ghost told = { λ b. record { room = b.bench.room; next = Some b.bench.next; objects = Some b.bench.objects; work = Some (record { made = b.made; not_yet = b.not_yet; contended = 0 }) } };

    fn act(&mut self, object: u32, who: &Actor, wish: &Wish) -> Benched {
        let answer = self.bench.act(object, who, wish);
        match &answer {
            Benched::Done(stamped) => self.made.push_reserved(*stamped),
            Benched::NotYet(_) => {
                self.looks.add(&mut self.share, 1);
                self.not_yet = self.not_yet.saturating_add(1);
            }
            Benched::Contended => {}
        }
        answer
    }

    fn stamp(&mut self, entry: &Entry) -> u64 {
        let stamp = self.bench.stamp(entry);
        self.made.push_reserved(Stamped {
            stamp,
            entry: *entry,
            event: None,
        });
        stamp
    }
}
