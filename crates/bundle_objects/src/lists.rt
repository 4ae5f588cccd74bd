//! Coherent access lists on a bundle.

ghost use Rattle.std.specs.Prelude.{◌≡◌, ◌<◌, ◌≤◌, ◌+◌, ℕ, drop, length, take, None, IfSome, true};
ghost use Rattle.bus_semantics.specs.Common.{words_of, Plan, plan_of, elems_of, marked, split, words_at, groups_fit};
ghost use Rattle.object_kinds.specs.Common.{acted};
ghost use Rattle.bundle_objects.specs.Acting.{Adds, IsFetched, IsPublished};
ghost use Rattle.bundle_objects.specs.Kept.{clear_in};
ghost use Rattle.bundle_objects.specs.Leading.{moment_in, publish, store, value_kept};
ghost use Rattle.bundle_objects.specs.Plans.{AreGroups, IsOfPlan};
ghost use Rattle.bundle_objects.specs.Words.{value_of};

use crate::bundle::Bundle;
use arrayvec::ArrayVec;
use bus_semantics::{Actor, BusPlan, Deed, Entry};
use object_kinds::{Filled, Shown};
use rte_value::{MOST_WORDS, Value, Word};

impl Bundle {
    /// A fetch of a list. There is none if its values together have more words than a value may have.
    pub(crate) fn fetch_all(&self, p: &BusPlan, who: &Actor, list: u32, out: &mut Entry) -> Filled
        requires groups { groups_fit (plan_of p.now) ≡ true }
        requires planned { AreGroups (plan_of p.now) self.now.kept }
        ensures { IsFetched (plan_of p.now) who.now list self.now.kept (acted result out.new) }
    {
        match self.moment(p, p.elems_of(list)) {
            Some(value) => {
                *out = Entry {
                    actor: *who,
                    deed: Deed::FetchAll { list, value },
                };
                Filled::Done
            }
            None => Filled::NotYet(Shown::Unmatched),
        }
    }

    /// The values of some elements, one after the other, if they have at most 16 words together.
    fn moment(&self, p: &BusPlan, elems: &[u32]) -> Option<Value>
        requires groups { groups_fit (plan_of p.now) ≡ true }
        requires planned { AreGroups (plan_of p.now) self.now.kept }
        ensures some { IfSome result (λ v. words_of v ≡ moment_in (plan_of p.now) self.now.kept elems.now) }
        ensures none { result ≡ None → 16 < length (moment_in (plan_of p.now) self.now.kept elems.now) }
    {
        let mut words: ArrayVec<Word, MOST_WORDS> = ArrayVec::new();
        for elem in elems {
            if let Some(value) = self.value(p, *elem) {
                match words.try_extend_from_slice(value.words()) {
                    Ok(()) => {}
                    Err(_) => return None,
                }
            }
        }
        Value::new(words.as_slice())
    }

    /// The value of an element, as its group keeps it.
    fn value(&self, p: &BusPlan, elem: u32) -> Option<Value>
        requires groups { groups_fit (plan_of p.now) ≡ true }
        requires planned { AreGroups (plan_of p.now) self.now.kept }
        ensures { result ≡ value_kept (plan_of p.now) self.now.kept elem }
    {
        match self.place_of(p, elem) {
            Some(place) => {
                self.groups[place as usize].value(p, self.numbers[place as usize], elem)
            }
            None => None,
        }
    }

    /// A publication of a list: the value has the words of the elements that are marked in `written`, one after the other.
    pub(crate) fn publish_all(
        &mut self,
        p: &BusPlan,
        who: &Actor,
        list: u32,
        written: u16,
        value: &Value,
        out: &mut Entry,
    ) -> Filled
        ensures { IsPublished (plan_of p.now) who.now list written value.now self.old self.new (acted result out.new) }
    {
        self.forget();
        self.publish_marked(p, p.elems_of(list), written, value.words());
        *out = Entry {
            actor: *who,
            deed: Deed::PublishAll {
                list,
                written,
                value: *value,
            },
        };
        Filled::Done
    }

    /// Stores the words of each marked element in its group, in the order of the elements.
    fn publish_marked(&mut self, p: &BusPlan, elems: &[u32], written: u16, words: &[Word])
        requires room { length self.old.woken + clear_in self.old.kept ≤ self.old.room }
        requires short { length words.now ≤ 16 }
        ensures kept { self.new.kept ≡ publish (plan_of p.now) self.old.kept (split (plan_of p.now) (marked written elems.now) words.now) }
        ensures adds { (bundle : ℕ) → IsOfPlan (plan_of p.now) bundle self.old.kept → Adds self.old self.new }
    {
        let mut marks = written;
        let mut rest = words;
        for elem in elems {
            if marks % 2 == 1 {
                rest = self.publish_front(p, *elem, rest);
            }
            marks /= 2;
        }
    }

    /// Stores the first of the words, as many as the element has, in its group, and gives those behind them.
    fn publish_front<'w>(&mut self, p: &BusPlan, elem: u32, words: &'w [Word]) -> &'w [Word]
        requires room { length self.old.woken + clear_in self.old.kept ≤ self.old.room }
        requires short { length words.now ≤ 16 }
        ensures rest { result.now ≡ drop (words_at (plan_of p.now) elem) words.now }
        ensures kept { self.new.kept ≡ store (plan_of p.now) self.old.kept elem (value_of (take (words_at (plan_of p.now) elem) words.now)) }
        ensures room { length self.new.woken + clear_in self.new.kept ≤ self.new.room }
        ensures adds { (bundle : ℕ) → IsOfPlan (plan_of p.now) bundle self.old.kept → Adds self.old self.new }
    {
        let count = (p.words_at(elem) as usize).min(words.len());
        if let Some(value) = Value::new(&words[..count]) {
            self.store(p, elem, &value);
        }
        &words[count..]
    }

    /// Stores a value in the group of an element.
    fn store(&mut self, p: &BusPlan, elem: u32, value: &Value)
        requires room { length self.old.woken + clear_in self.old.kept ≤ self.old.room }
        ensures kept { self.new.kept ≡ store (plan_of p.now) self.old.kept elem value.now }
        ensures room { length self.new.woken + clear_in self.new.kept ≤ self.new.room }
        ensures adds { (bundle : ℕ) → IsOfPlan (plan_of p.now) bundle self.old.kept → Adds self.old self.new }
    {
        if let Some(place) = self.place_of(p, elem) {
            self.store_at(place, value);
        }
    }
}
