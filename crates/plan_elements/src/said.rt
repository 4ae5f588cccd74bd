//! What is said of elements and variables: their initial words and queues.

ghost use Rattle.std.specs.Prelude.{◌≡◌, None, false, if◌then◌else◌, option_and_then, option_copied, pos, replicate};
ghost use Rattle.bus_semantics.specs.Common.{option_map_or, unwrap_or, clamped, words_of as value_words};
ghost use Rattle.plan_definitions.specs.Elements.{held, keeps_last, keeps_queue, limits_of, words_of, zeros};

use bus_semantics::ElemKind;
use description_types::{ComSpec, DataType};
use plan_definitions::SiteKind;
use rte_text::Seq;
use rte_value::{Limits, MOST_WORDS, Value, Word};

/// The limits of each word of a type; of no type 0 alone.
pub fn limits_of(found: Option<DataType>) -> Limits
    ensures { result ≡ limits_of found }
{
    match found {
        Some(found) => found.limits,
        None => Limits { low: 0, high: 0 },
    }
}

/// How many words a type has; of no type none.
pub fn words_of(found: Option<DataType>) -> u8
    ensures { result ≡ words_of found }
{
    match found {
        Some(found) => found.words,
        None => 0,
    }
}

fn zero_within(limits: Limits) -> Word
    ensures { result ≡ clamped limits (pos 0) }
{
    limits.low.max(Word::min(0, limits.high))
}

fn keeps_last(kind: SiteKind, kept: ElemKind) -> bool
    ensures { result ≡ keeps_last kind kept }
{
    matches!((kind, kept), (SiteKind::Element(false), ElemKind::Unqueued))
}

fn keeps_queue(kind: SiteKind, kept: ElemKind) -> bool
    ensures { result ≡ keeps_queue kind kept }
{
    matches!((kind, kept), (SiteKind::Element(false), ElemKind::Queued))
}

/// The initial words that a port gives to an item, by how it is kept.
pub fn given_by(kind: SiteKind, kept: ElemKind, spec: Option<&ComSpec>) -> Option<&Seq<Word>>
    ensures { option_copied result ≡ (if keeps_last kind kept then option_and_then (λ c. c.init_value) (option_copied spec.entry) else None) }
{
    if keeps_last(kind, kept) {
        spec?.init_value.as_ref()
    } else {
        None
    }
}

fn held(words: &[Word]) -> Value
    ensures { value_words result ≡ held words.now }
{
    match Value::new(words) {
        Some(value) => value,
        None => Value::empty(),
    }
}

fn repeated(word: Word, count: usize) -> Value
    ensures { value_words result ≡ held (replicate count word) }
{
    if count > MOST_WORDS {
        return Value::empty();
    }
    let words = [word; MOST_WORDS];
    held(&words[..count])
}

/// 0 in each word of a type, or what lies nearest to it within the limits. Most types have one word.
fn zero_value(found: Option<DataType>) -> Value
    ensures { value_words result ≡ held (zeros found) }
{
    let zero = zero_within(limits_of(found));
    let count = words_of(found);
    if count == 1 {
        return Value::of_word(zero);
    }
    repeated(zero, count as usize)
}

/// The initial value: the words that are given, else 0 in each word.
pub fn init_of(given: Option<&Seq<Word>>, found: Option<DataType>) -> Value
    ensures { value_words result ≡ held (unwrap_or (option_copied given.entry) (zeros found)) }
{
    match given {
        Some(words) => held(words.items()),
        None => zero_value(found),
    }
}

/// Whether a read before the first write answers that nothing was received.
pub fn never_received_by(kind: SiteKind, kept: ElemKind, spec: Option<&ComSpec>) -> bool
    ensures { result ≡ (if keeps_last kind kept then option_map_or (λ c. c.handle_never_received) (option_copied spec.entry) false else false) }
{
    match spec {
        Some(spec) => keeps_last(kind, kept) && spec.handle_never_received,
        None => false,
    }
}

/// How many values the queue of a required queued element holds, and 1 for others.
pub fn queue_by(kind: SiteKind, kept: ElemKind, spec: Option<&ComSpec>) -> u32
    ensures { result ≡ (if keeps_queue kind kept then option_map_or (λ c. c.queue_length) (option_copied spec.entry) 1 else 1) }
{
    if !keeps_queue(kind, kept) {
        return 1;
    }
    match spec {
        Some(spec) => spec.queue_length,
        None => 1,
    }
}
