//! A seat at its bench.

ghost use Rattle.std.specs.Prelude.{◌≡◌, ◌<◌, ℕ, length, Some};
ghost use Rattle.bus_semantics.specs.Common.{vec_capacity, plan_of, wanted_of};
ghost use Rattle.port_objects.specs.Benches.{IsAsked, IsActed, written_last, benched, IsWritten};
ghost use Rattle.cross_core_table.specs.Logs.{plan_in};
ghost use Rattle.cross_core_table.specs.OpenRounds.{OpenRound, told_of};
ghost use Rattle.cross_core_table.specs.Places.{KnowsAfter};
ghost use Rattle.cross_core_table.specs.Seats.{IsSeatOf, view_of, core_of};

use crate::acting::{act_at, stamp_at};
use crate::round::Round;
use crate::seats::CoreSeat;
use bus_semantics::{Actor, BusPlan, Entry, Stamped, Wish};
use port_objects::{Answered, Bench, Benched, last_entries_are_last, last_written};
use std::marker::Model;

/// A seat of a round, as the bench of its core's turns. It borrows the round and the plan. Contracts see the round, the core, and
/// what the seat knows. It tells its work, and not its objects. No call takes memory, and none waits.
#[derive(Drop)]
pub struct SeatBench<'a> {
    round: &'a Round,
    plan: &'a BusPlan,
    seat: CoreSeat,
}

impl<'a> Model for SeatBench<'a> {
    ghost use Rattle.std.specs.Prelude.{◌≡◌};
    ghost use Rattle.bus_semantics.specs.Plan.{plan_of};
    ghost use Rattle.cross_core_table.specs.Logs.{plan_in};
    ghost use Rattle.cross_core_table.specs.OpenRounds.{Sitting};
    ghost use Rattle.cross_core_table.specs.Seats.{IsSeatOf};
    ghost use Rattle.runnable_lang.specs.contracts.stmt.Stmt as statements;
    ghost use Rattle.runnable_lang.specs.contracts.stmt.Expr as expressions;
    ghost use Rattle.std.specs.Coded.{codes};

    ghost Value = { Sitting };

    ghost coded = { Prim.hlevel (codes, statements.the_row.coded, expressions.the_row.coded) };

    ghost view = { λ b. record { round = b.round.now; core = b.seat.core; view = b.seat.place.me.0 } };

    ghost invariant = { λ b. IsSeatOf b.round.now b.seat.core b.seat × (plan_of b.plan.now ≡ plan_in b.round.now.opening) };
}

impl Round {
    /// The bench of a seat of this round, over the plan of the round. It takes no memory.
    pub fn bench<'a>(&'a self, p: &'a BusPlan, seat: CoreSeat) -> SeatBench<'a>
        requires plan { plan_of p.now ≡ plan_in self.now.opening }
        requires seat { IsSeatOf self.now (core_of seat) seat }
        ensures { result ≡ record { round = self.now; core = core_of seat; view = view_of seat } }
    {
        SeatBench {
            round: self,
            plan: p,
            seat,
        }
    }
}

impl<'a> SeatBench<'a> {
    /// The seat, given back. It takes no memory.
    pub fn leave(self) -> CoreSeat
        ensures seat { IsSeatOf self.entry.round self.entry.core result }
        ensures view { view_of result ≡ self.entry.view }
    {
        self.seat
    }

    /// Makes the entry of a wish on the object of this number, if no other core holds it and one may come. It tries the object
    /// once, and waits for nobody.
    ///
    /// What the seat then knows says why: after `Done` the entry is the last of what the core made; after `NotYet` the seat has
    /// looked at the object, and after the entries that it saw there no entry of the wish leads on; after `Contended` its one try
    /// found the word of the object naming another core.
    pub fn act_once(&mut self, object: u32, who: &Actor, wish: &Wish) -> Benched
        requires room { length self.old.view.made < self.old.round.opening.room }
        requires asked { IsAsked (plan_in self.old.round.opening) object who.now (wanted_of wish.now) }
        ensures round { self.new.round ≡ self.old.round }
        ensures core { self.new.core ≡ self.old.core }
        ensures knows { KnowsAfter self.old.round.opening self.old.core object who.now (wanted_of wish.now) self.old.view self.new.view result }
    {
        match self.act_in_place(object, who, wish) {
            Answered::Made => Benched::Done(*self.last_made()),
            Answered::NotYet(shown) => Benched::NotYet(shown),
            Answered::Contended => Benched::Contended,
        }
    }

    /// As `act_once`, and leaves the entry where the seat keeps it.
    fn act_in_place(&mut self, object: u32, who: &Actor, wish: &Wish) -> Answered
        requires room { length self.old.view.made < self.old.round.opening.room }
        requires asked { IsAsked (plan_in self.old.round.opening) object who.now (wanted_of wish.now) }
        ensures round { self.new.round ≡ self.old.round }
        ensures core { self.new.core ≡ self.old.core }
        ensures written { IsWritten self.old.view.made self.new.view.made result }
        ensures knows { KnowsAfter self.old.round.opening self.old.core object who.now (wanted_of wish.now) self.old.view self.new.view (benched result self.new.view.made) }
    {
        act_at(
            self.round.top(),
            self.plan,
            &mut self.seat,
            object,
            who,
            wish,
        )
    }

    /// The entry that it made last.
    fn last_made(&self) -> &Stamped
        requires { 0 < length self.now.view.made }
        ensures { written_last self.now.view.made ≡ Some result.now }
    {
        last_written(self.seat.made.as_slice())
    }
}

impl<'a> Bench for SeatBench<'a> {
    ghost use Rattle.cross_core_table.specs.Logs.{plan_in};
    ghost use Rattle.cross_core_table.specs.OpenRounds.{told_of};

    type Home = (Round, u32);

    ghost home = { λ b. (b.round, b.core) };

    ghost plan = { λ b. plan_in b.round.opening };

    ghost told = { told_of };

    /// As `act_once`.
    fn act(&mut self, object: u32, who: &Actor, wish: &Wish) -> Benched
        requires room { 0 < (told_of self.old).room }
        requires asked { IsAsked (plan_in self.old.round.opening) object who.now (wanted_of wish.now) }
        ensures home { ◌≡◌ {A = OpenRound × ℕ} (self.new.round, self.new.core) (self.old.round, self.old.core) }
        ensures plan { plan_in self.new.round.opening ≡ plan_in self.old.round.opening }
        ensures acted { IsActed (plan_in self.old.round.opening) object who.now (wanted_of wish.now) (told_of self.old) (told_of self.new) result }
        ensures knows { KnowsAfter self.old.round.opening self.old.core object who.now (wanted_of wish.now) self.old.view self.new.view result }
    {
        self.act_once(object, who, wish)
    }

    fn stamp(&mut self, entry: &Entry) -> u64 {
        stamp_at(self.round.top(), &mut self.seat, entry)
    }

    /// As `act_once`, and writes the entry down at the end of this list.
    fn act_into(
        &mut self,
        object: u32,
        who: &Actor,
        wish: &Wish,
        made: &mut Vec<Stamped>,
    ) -> Answered
        requires room { 0 < (told_of self.old).room }
        requires asked { IsAsked (plan_in self.old.round.opening) object who.now (wanted_of wish.now) }
        requires space { length made.old.items < vec_capacity made.old }
        ensures home { ◌≡◌ {A = OpenRound × ℕ} (self.new.round, self.new.core) (self.old.round, self.old.core) }
        ensures plan { plan_in self.new.round.opening ≡ plan_in self.old.round.opening }
        ensures capacity { vec_capacity made.new ≡ vec_capacity made.old }
        ensures written { IsWritten made.old.items made.new.items result }
        ensures acted { IsActed (plan_in self.old.round.opening) object who.now (wanted_of wish.now) (told_of self.old) (told_of self.new) (benched result made.new.items) }
        ensures knows { KnowsAfter self.old.round.opening self.old.core object who.now (wanted_of wish.now) self.old.view self.new.view (benched result made.new.items) }
    {
        last_entries_are_last();
        let answered = self.act_in_place(object, who, wish);
        if let Answered::Made = answered {
            made.push_reserved(*self.last_made());
        }
        answered
    }
}
