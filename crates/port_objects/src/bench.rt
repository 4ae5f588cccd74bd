//! The bench: where the entries of a turn are made.

use bus_semantics::{Actor, Deed, Entry, Stamped, Wish};
use object_kinds::Shown;

/// What a bench answers to a wish.
#[derive(Drop)]
pub enum Benched {
    /// This entry was made.
    Done(Stamped),
    /// No entry of the wish may come, and why.
    NotYet(Shown),
    /// Another core holds the object.
    Contended,
}

/// What a bench answers to a wish, if it writes the entry down itself.
#[derive(Drop)]
pub enum Answered {
    /// An entry was made, and is the last that was written down.
    Made,
    /// No entry of the wish may come, and why.
    NotYet(Shown),
    /// Another core holds the object.
    Contended,
}

/// Where the entries of a turn are made: objects that one thread has to itself, or a seat at a table that cores share.
///
/// A bench has a plan and room for so many entries, and a home, which no call changes (what it borrows, for instance). It may
/// tell its next stamp and its objects, and it may tell its work: the entries that it made and how often it answered `NotYet`
/// and `Contended`. What it tells it goes on telling. No call takes memory.
pub trait Bench {
    ghost use Rattle.std.specs.Prelude.{◌≡◌, ◌<◌, length, None};
    ghost use Rattle.std.specs.Vec.{vec_capacity};
    ghost use Rattle.bus_semantics.specs.Plan.{Plan};
    ghost use Rattle.bus_semantics.specs.Objects.{touched_by};
    ghost use Rattle.bus_semantics.specs.Wanted.{wanted_of};
    ghost use Rattle.port_objects.specs.Benches.{Told, IsAsked, IsActed, IsStamped, stamped_alone, benched, IsWritten, IsStampedInto};

    /// What stays the same of a bench.
    type Home;

    ghost home: { Self → Self.Home };

    ghost plan: { Self → Plan };

    ghost told: { Self → Told };

    /// Makes the entry of a wish on the object of this number, if one may come. `NotYet` and `Contended` change nothing. `Done` is
    /// an entry of the actor and of the wish, and each entry takes one of its room. A bench that tells its next stamp gives the
    /// entry that; one that tells its objects answers as `act` does; one that tells its work adds each entry at the end, and no
    /// count of it falls.
    fn act(&mut self, object: u32, who: &Actor, wish: &Wish) -> Benched
        requires room { 0 < (told self.old).room }
        requires asked { IsAsked (plan self.old) object who.now (wanted_of wish.now) }
        ensures home { home self.new ≡ home self.old }
        ensures plan { plan self.new ≡ plan self.old }
        ensures acted { IsActed (plan self.old) object who.now (wanted_of wish.now) (told self.old) (told self.new) result };

    /// Takes an entry that touches no object, and answers its stamp.
    fn stamp(&mut self, entry: &Entry) -> u64
        requires room { 0 < (told self.old).room }
        requires alone { touched_by (plan self.old) (record { entry = entry.now; event = None }) ≡ None }
        ensures home { home self.new ≡ home self.old }
        ensures plan { plan self.new ≡ plan self.old }
        ensures stamped { IsStamped (told self.old) (told self.new) (stamped_alone result entry.now) };

    /// As `act`, and writes the entry down, once, at the end of this list, which has room for one more. `NotYet` and `Contended`
    /// write nothing.
    fn act_into(
        &mut self,
        object: u32,
        who: &Actor,
        wish: &Wish,
        made: &mut Vec<Stamped>,
    ) -> Answered
        requires room { 0 < (told self.old).room }
        requires asked { IsAsked (plan self.old) object who.now (wanted_of wish.now) }
        requires space { length made.old.items < vec_capacity made.old }
        ensures home { home self.new ≡ home self.old }
        ensures plan { plan self.new ≡ plan self.old }
        ensures capacity { vec_capacity made.new ≡ vec_capacity made.old }
        ensures written { IsWritten made.old.items made.new.items result }
        ensures acted { IsActed (plan self.old) object who.now (wanted_of wish.now) (told self.old) (told self.new) (benched result made.new.items) }
    {
        match self.act(object, who, wish) {
            Benched::Done(stamped) => {
                made.push_reserved(stamped);
                Answered::Made
            }
            Benched::NotYet(shown) => Answered::NotYet(shown),
            Benched::Contended => Answered::Contended,
        }
    }

    /// As `stamp` of the actor's entry of this deed, and writes it down, once, at the end of this list, which has room for one more.
    fn stamp_into(&mut self, who: &Actor, deed: &Deed, made: &mut Vec<Stamped>)
        requires room { 0 < (told self.old).room }
        requires alone { touched_by (plan self.old) (record { entry = record { actor = who.now; deed = deed.now }; event = None }) ≡ None }
        requires space { length made.old.items < vec_capacity made.old }
        ensures home { home self.new ≡ home self.old }
        ensures plan { plan self.new ≡ plan self.old }
        ensures capacity { vec_capacity made.new ≡ vec_capacity made.old }
        ensures stamped { IsStampedInto (told self.old) (told self.new) made.old.items made.new.items (record { actor = who.now; deed = deed.now }) }
    {
        let entry = Entry {
            actor: *who,
            deed: *deed,
        };
        let stamp = self.stamp(&entry);
        made.push_reserved(Stamped {
            stamp,
            entry,
            event: None,
        });
    }
}
