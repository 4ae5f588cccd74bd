//! The header of a component.

ghost use Rattle.std.specs.Prelude.{◌≡◌, [], Some, bytes_eq, option_map};
ghost use Rattle.plan_text.specs.Calls.{all_seen, seen};
ghost use Rattle.plan_text.specs.Headers.{Makes, clash, component_named, header_for, header_of, header_text, header_with, made};
ghost use Rattle.plan_text.specs.Listing.{each_once, first_clash};
ghost use Rattle.plan_text.specs.Noting.{AreKept, kept};
ghost use Rattle.plan_text.specs.Targets.{name_of};

use crate::calls::{Call, given};
use crate::header_listing::{Calls, list};
use crate::text::{header_text, name_of};
use description_types::{Component, Description, TypeTable};
use indexmap::IndexMap;
use rte_text::Text;
use std::alloc::Global;

/// What there is of a header.
#[derive(Drop)]
pub enum HeaderMade {
    /// Its text.
    Made(Vec<u8>),
    /// No component has the name.
    NoComponent,
    /// Two different calls have this name, and no two have one before the second of them.
    Clash(Text),
    /// There was no memory for it.
    Memory,
}

fn text_of(alloc: Global, name: &[u8], calls: &Calls) -> HeaderMade
    requires { AreKept calls.now }
    ensures { Makes (made (header_text name.now (kept calls.now))) result }
{
    match header_text(alloc, name, calls) {
        Ok(text) => HeaderMade::Made(text),
        Err(_) => HeaderMade::Memory,
    }
}

fn clash_of(alloc: Global, call: &Call) -> HeaderMade
    ensures { Makes (clash (name_of (seen call.now))) result }
{
    match name_of(alloc, call) {
        Ok(name) => HeaderMade::Clash(Text::of(name)),
        Err(_) => HeaderMade::Memory,
    }
}

/// The header that lists these calls, unless two of them clash.
fn header_with<'a>(alloc: Global, name: &[u8], given: &[Call<'a>]) -> HeaderMade
    ensures { Makes (header_with name.now (each_once (all_seen given.now)) (first_clash [] (each_once (all_seen given.now)))) result }
{
    let mut calls = IndexMap::new(alloc);
    match list(alloc, given, &mut calls) {
        Ok(None) => text_of(alloc, name, &calls),
        Ok(Some(call)) => clash_of(alloc, &call),
        Err(_) => HeaderMade::Memory,
    }
}

fn header_for(alloc: Global, types: &TypeTable, name: &[u8], component: &Component) -> HeaderMade
    ensures { Makes (header_for types.now name.now (Some component.now)) result }
{
    match given(alloc, types, component) {
        Ok(calls) => header_with(alloc, name, calls.as_slice()),
        Err(_) => HeaderMade::Memory,
    }
}

/// The first component of the name.
fn component_named<'a>(d: &'a Description, name: &[u8]) -> Option<&'a Component>
    ensures { option_map (λ component. component.now) result ≡ component_named d.now name.now }
{
    d.components
        .items()
        .iter()
        .find(|component| component.short_name.bytes() == name)
}

/// Lists the calls that the code of a component may use, as its header `Rte_<name>.h` names them (SWS_RTE: 'Contract Phase').
/// The text has a line with the name of the header, and then one for each call, in the order of the runnables and of their
/// accesses, each once. If two different calls have one name, the answer is the first name that clashes; if no component has the
/// name, that there is none. Of several components of one name the first is meant.
pub fn header(alloc: Global, d: &Description, component: &str) -> HeaderMade
    ensures { Makes (header_of d.now component.now) result }
{
    let name = component.as_bytes();
    match component_named(d, name) {
        Some(found) => header_for(alloc, &d.types, name, found),
        None => HeaderMade::NoComponent,
    }
}
