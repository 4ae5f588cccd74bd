//! What a body works on.

ghost use Rattle.std.specs.Prelude.{◌≡◌, ◌≤◌, [], map, get_or, is_none, replicate, set, OnOk};
ghost use Rattle.bus_semantics.specs.Common.{vec_capacity, words_of, stored};
ghost use Rattle.task_machine.specs.Store.{with_vars, with_fetched, with_written, fetched_in, written_in, words_or_none};
ghost use Rattle.task_machine.specs.Spots.{store_of, room_of, first_store};

use crate::Memory;
use crate::instr::Body;
use rte_value::{Value, Word};

/// What a body works on. Clauses see it by `store_of`.
#[derive(Drop)]
pub struct Store {
    /// Its variables, each at the place of its number.
    pub vars: Vec<Word>,
    /// The values that it fetched, by slot (SWS_RTE: Rte_IRead, Rte_IrvIRead).
    pub fetched: Vec<Value>,
    /// The values that it is to publish, by slot; none if nothing was written (SWS_RTE: Rte_IWrite, Rte_IrvIWrite).
    pub written: Vec<Option<Value>>,
}

/// Fills a list with so many of these items, in the room that there is.
#[tactic(auto, using(std::proofs::lemmas::List::replicate_more))]
pub fn refill<T: Copy>(items: &mut Vec<T>, count: usize, item: T)
    requires room { count ≤ vec_capacity items.old }
    ensures items { items.new.items ≡ replicate count item }
    ensures room { vec_capacity items.new ≡ vec_capacity items.old }
{
    items.clear();
    for _ in 0..count {
        items.push_reserved(item);
    }
}

/// A list that has room for so many items, or is emptied and gets it. An error says that there was no memory.
pub fn make_room<T: Copy>(items: &mut Vec<T>, count: usize) -> Result<(), Memory>
    ensures { OnOk result (count ≤ vec_capacity items.new) }
{
    if items.capacity() < count {
        items.clear();
        items.reserve_exact(count)?;
    }
    Ok(())
}

/// The variable takes the word. One that there is not takes nothing.
fn put_word(vars: &mut Vec<Word>, var: u32, word: Word)
    ensures vars { vars.new.items ≡ set vars.old.items var word }
    ensures room { vec_capacity vars.new ≡ vec_capacity vars.old }
{
    if let Some(place) = vars.get_mut(var as usize) {
        *place = word;
    }
}

/// The words go into the variables of these numbers from left to right. If there are fewer words, the others stay.
fn put_words(vars: &mut Vec<Word>, numbers: &[u32], words: &[Word])
    ensures vars { vars.new.items ≡ stored numbers.now words.now vars.old.items }
    ensures room { vec_capacity vars.new ≡ vec_capacity vars.old }
{
    for (number, word) in numbers.iter().zip(words) {
        put_word(vars, *number, *word);
    }
}

/// The words of the slot, and none if there is no such slot.
fn words_in(values: &[Value], slot: usize) -> &[Word]
    ensures { result.now ≡ get_or (map words_of values.now) slot [] }
{
    match values.get(slot) {
        Some(value) => value.words(),
        None => &[],
    }
}

impl Store {
    /// An activation of the body begins, with these values of the `in` arguments.
    pub fn begin(&mut self, body: &Body, words: &[Word])
        requires vars { body.now.vars ≤ vec_capacity self.old.vars }
        requires fetched { body.now.fetched ≤ vec_capacity self.old.fetched }
        requires written { body.now.written ≤ vec_capacity self.old.written }
        ensures first { store_of self.new ≡ first_store body.now words.now }
        ensures room { room_of self.new ≡ room_of self.old }
    {
        refill(&mut self.vars, body.vars as usize, 0);
        refill(&mut self.fetched, body.fetched, Value::empty());
        refill(&mut self.written, body.written, None);
        put_words(&mut self.vars, body.arguments.items(), words);
    }

    /// The variable takes the word. One that there is not takes nothing.
    pub fn put(&mut self, var: u32, word: Word)
        ensures store { store_of self.new ≡ with_vars (set self.old.vars.items var word) (store_of self.old) }
        ensures room { room_of self.new ≡ room_of self.old }
    {
        put_word(&mut self.vars, var, word);
    }

    /// The words go into the variables of these numbers from left to right. If there are fewer words, the others stay.
    pub fn put_all(&mut self, numbers: &[u32], words: &[Word])
        ensures store { store_of self.new ≡ with_vars (stored numbers.now words.now self.old.vars.items) (store_of self.old) }
        ensures room { room_of self.new ≡ room_of self.old }
    {
        put_words(&mut self.vars, numbers, words);
    }

    /// The words that were fetched into the slot go into the variables of these numbers.
    pub fn load(&mut self, numbers: &[u32], slot: usize)
        ensures store { store_of self.new ≡ with_vars (stored numbers.now (fetched_in slot (store_of self.old)) self.old.vars.items) (store_of self.old) }
        ensures room { room_of self.new ≡ room_of self.old }
    {
        put_words(&mut self.vars, numbers, words_in(&self.fetched, slot));
    }

    /// The slot takes what was fetched.
    pub fn fetch(&mut self, slot: usize, value: Value)
        ensures store { store_of self.new ≡ with_fetched slot (words_of value) (store_of self.old) }
        ensures room { room_of self.new ≡ room_of self.old }
    {
        if let Some(place) = self.fetched.get_mut(slot) {
            *place = value;
        }
    }

    /// The slot takes what is to be published, in the place of what was written into it before.
    pub fn keep(&mut self, slot: usize, value: Value)
        ensures store { store_of self.new ≡ with_written slot (words_of value) (store_of self.old) }
        ensures room { room_of self.new ≡ room_of self.old }
    {
        if let Some(place) = self.written.get_mut(slot) {
            *place = Some(value);
        }
    }

    /// Whether nothing was written into the slot.
    pub fn is_unwritten(&self, slot: usize) -> bool
        ensures { result ≡ is_none (written_in slot (store_of self.now)) }
    {
        match self.written.get(slot) {
            Some(written) => written.is_none(),
            None => true,
        }
    }

    /// What is to be published of the slot, and the empty value if nothing was written.
    pub fn published(&self, slot: usize) -> Value
        ensures { words_of result ≡ words_or_none (written_in slot (store_of self.now)) }
    {
        match self.written.get(slot) {
            Some(Some(value)) => *value,
            _ => Value::empty(),
        }
    }
}
