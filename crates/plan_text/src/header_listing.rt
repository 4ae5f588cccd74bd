//! The calls that are listed, each once, and the first clash among them.

ghost use Rattle.std.specs.Prelude.{◌≡◌, ◌++◌, ◌∷◌, [], IfOk, OnOk, None, false, option_map, bytes_eq};
ghost use Rattle.std.specs.Cmp.Lexicographic.{pointwise};
ghost use Rattle.std.specs.List.{find};
ghost use Rattle.indexmap.specs.IndexMap.{IsEmpty};
ghost use Rattle.plan_text.specs.Calls.{all_seen, seen, seen_parts};
ghost use Rattle.plan_text.specs.Listing.{each_once, first_clash, has_name};
ghost use Rattle.plan_text.specs.Noting.{AreKept, Notes, is_clashing, kept};
ghost use Rattle.plan_text.specs.Targets.{name_of, same_target};

use crate::calls::{Call, Parts};
use crate::text::name_of;
use indexmap::IndexMap;
use rte_text::Memory;
use std::alloc::Global;

/// Calls, each under its name, in the order of their first places.
pub type Calls<'a> = IndexMap<Vec<u8>, Call<'a>>;

/// What a call is to those before it.
#[derive(Clone, Copy)]
pub enum Noted {
    /// It is one of them.
    Known,
    /// It is another, of a name that none of them has.
    New,
    /// It is another, of a name that one of them has.
    Clashing,
}

fn same_parts(a: &Parts, b: &Parts) -> bool
    ensures { result ≡ pointwise bytes_eq (seen_parts a.now) (seen_parts b.now) }
{
    match (a, b) {
        (Parts::One(a), Parts::One(b)) => a == b,
        (Parts::Two(a, b), Parts::Two(c, d)) => a == c && b == d,
        (Parts::Three(a, b, c), Parts::Three(d, e, f)) => a == d && b == e && c == f,
        _ => false,
    }
}

/// Whether two calls work on the same.
fn same_target(a: &Call, b: &Call) -> bool
    ensures { result ≡ same_target (seen a.now) (seen b.now) }
{
    a.word == b.word && same_parts(&a.parts, &b.parts)
}

/// The call of this name.
fn find<'a>(calls: &Calls<'a>, name: &[u8]) -> Option<Call<'a>>
    requires { AreKept calls.now }
    ensures { option_map seen result ≡ find (λ t. bytes_eq name.now (name_of t)) (kept calls.now) }
{
    calls.get(name).copied()
}

/// Keeps a call under its name, which no other has.
fn keep<'a>(calls: &mut Calls<'a>, name: Vec<u8>, call: Call<'a>) -> Result<(), Memory>
    requires kept { AreKept calls.old }
    requires named { name.items ≡ name_of (seen call) }
    requires new { has_name (kept calls.old) (name_of (seen call)) ≡ false }
    ensures kept { OnOk result (AreKept calls.new) }
    ensures last { OnOk result (kept calls.new ≡ kept calls.old ++ seen call.entry ∷ []) }
{
    calls.insert(name, call)?;
    Ok(())
}

/// Keeps a call that is none of those before it and has a name of its own.
fn note<'a>(alloc: Global, calls: &mut Calls<'a>, call: Call<'a>) -> Result<Noted, Memory>
    requires { AreKept calls.old }
    ensures kept { OnOk result (AreKept calls.new) }
    ensures noted { IfOk result (λ noted. Notes (kept calls.old) (seen call.entry) noted (kept calls.new)) }
{
    let name = name_of(alloc, &call)?;
    match find(calls, name.as_slice()) {
        Some(first) if same_target(&call, &first) => Ok(Noted::Known),
        Some(_) => Ok(Noted::Clashing),
        None => {
            keep(calls, name, call)?;
            Ok(Noted::New)
        }
    }
}

fn is_clashing(noted: Noted) -> bool
    ensures { result ≡ is_clashing noted }
{
    matches!(noted, Noted::Clashing)
}

/// Keeps each call once. The answer is the first call that has the name of another one before it; calls behind it are not
/// looked at.
pub fn list<'a>(
    alloc: Global,
    given: &[Call<'a>],
    calls: &mut Calls<'a>,
) -> Result<Option<Call<'a>>, Memory>
    requires { IsEmpty calls.old }
    ensures clash { IfOk result (λ clash. option_map (λ call. name_of (seen call)) clash ≡ first_clash [] (each_once (all_seen given.now))) }
    ensures listed { IfOk result (λ clash. clash ≡ None → kept calls.new ≡ each_once (all_seen given.now)) }
    ensures kept { OnOk result (AreKept calls.new) }
{
    for call in given {
        let noted = note(alloc, calls, *call)?;
        if is_clashing(noted) {
            return Ok(Some(*call));
        }
    }
    Ok(None)
}
