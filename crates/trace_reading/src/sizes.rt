//! How large what an entry holds is. By the types of the code each is small enough, so each test here passes.

ghost use Rattle.std.specs.Prelude.{◌≡◌, nat_lt, true};
ghost use Rattle.bus_semantics.specs.Reading.{are_words, is_byte, is_index, is_point, is_sized, is_sized_actor};

use bus_semantics::{Actor, Deed};
use rte_value::{Code, Step, Value};

/// Whether each word has 64 bits.
fn are_words(value: &Value) -> bool
    ensures { result ≡ are_words value.now }
{
    value
        .words()
        .iter()
        .all(|word| i64::MIN <= *word && *word <= i64::MAX)
}

/// Whether the number has 32 bits.
fn is_index(number: u32) -> bool
    ensures { result ≡ is_index number }
{
    number <= u32::MAX
}

/// Whether there is no point, or its number has 32 bits.
fn is_point(point: Option<u32>) -> bool
    ensures { result ≡ is_point point }
{
    match point {
        Some(point) => is_index(point),
        None => true,
    }
}

/// Whether the code is a byte.
fn is_byte(code: Code) -> bool
    ensures { result ≡ is_byte code }
{
    code <= u8::MAX
}

/// Whether a mask has 16 bits.
fn is_mask(mask: u16) -> bool
    ensures { result ≡ nat_lt mask 65536 }
{
    mask <= u16::MAX
}

/// The numbers of an actor have 32 bits.
pub fn actor_is_sized(actor: Actor)
    ensures { is_sized_actor actor ≡ true }
{}

/// Whether the deed's numbers have 32 bits, its codes are bytes, its masks have 16 bits, and its words have 64.
pub fn is_sized(deed: &Deed) -> bool
    ensures { result ≡ is_sized deed.now }
{
    match deed {
        Deed::Tick | Deed::Admit { .. } | Deed::End => true,
        Deed::Start {
            event,
            point,
            value,
        } => is_index(*event) && is_point(*point) && are_words(value),
        Deed::Fetch { elem, value } | Deed::Write { elem, value } | Deed::Publish { elem, value } =>
            is_index(*elem) && are_words(value),
        Deed::Read { elem, code, value }
        | Deed::Send { elem, value, code }
        | Deed::Receive { elem, code, value } => {
            is_index(*elem) && is_byte(*code) && are_words(value)
        }
        Deed::Ask { point, value, code }
        | Deed::Answer { point, code, value }
        | Deed::TakeResult { point, code, value } => {
            is_index(*point) && is_byte(*code) && are_words(value)
        }
        Deed::Return { code, value } => is_byte(*code) && are_words(value),
        Deed::Invalidate { elem } | Deed::IsUpdated { elem, .. } => is_index(*elem),
        Deed::Enter { area } | Deed::Leave { area } => is_index(*area),
        Deed::Switch {
            machine,
            mode,
            code,
        } => is_index(*machine) && is_index(*mode) && is_byte(*code),
        Deed::Mode { port, mode } => is_index(*port) && is_index(*mode),
        Deed::Phase(Step::Close(mode)) => is_index(*mode),
        Deed::Phase(_) => true,
        Deed::FetchAll { list, value } => is_index(*list) && are_words(value),
        Deed::PublishAll {
            list,
            written,
            value,
        } => is_index(*list) && is_mask(*written) && are_words(value),
    }
}
