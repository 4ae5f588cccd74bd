//! The lines of joins.

ghost use Rattle.std.specs.Prelude.{◌≡◌, ◌++◌, [], IfOk, IsTrue, OnOk, codes, option_copied, option_map, slice_get};
ghost use Rattle.bus_semantics.specs.Common.{flat_map, option_map_or};
ghost use Rattle.plan_definitions.specs.Ports.{item_name, item_text};
ghost use Rattle.plan_text.specs.Lines.{end_text, join_line};
ghost use Rattle.plan_text.specs.Beginnings.{Begins, beginning};

use crate::lines::{add_owned, item_name, owner_text, port_name};
use description_types::{Description, End, Flat, InterfaceKind, Join, Port};
use plan_numbers::{interface_at, interface_of, port_of};
use rte_text::Memory;
use std::alloc::Global;

/// A port: its instance, or none for the environment, and its position.
type Place = (Option<u32>, u32);

/// How the lines of the joins of a provided port begin. They come one after the other, so this is put together once for all.
#[derive(Drop)]
pub struct Beginning<'a> {
    place: Place,
    text: Vec<u8>,
    kind: Option<&'a InterfaceKind>,
}

fn name_in(kind: Option<&InterfaceKind>, item: u32) -> &[u8]
    ensures { result.now ≡ option_map_or (λ found. item_name found item) (option_copied kind.entry) [] }
{
    match kind {
        Some(kind) => item_name(kind, item),
        None => &[],
    }
}

/// Puts `join INSTANCE.PORT.`, or `join env.PORT.`, in the place of a text.
fn begin(d: &Description, f: &Flat, place: Place, text: &mut Vec<u8>) -> Result<(), Memory>
    ensures { OnOk result (text.new.items ≡ beginning d.now f.now place) }
{
    text.clear();
    text.extend_from_slice(b"join ")?;
    add_owned(f, place.0, port_name(d, f, place.0, place.1), text)?;
    text.push(b'.')?;
    Ok(())
}

impl<'a> Beginning<'a> {
    /// The state before the lines of a port.
    fn new(
        alloc: Global,
        d: &'a Description,
        f: &Flat,
        place: Place,
    ) -> Result<Beginning<'a>, Memory>
        ensures { IfOk result (Begins d.now f.now) }
    {
        let mut text = Vec::new(alloc);
        begin(d, f, place, &mut text)?;
        let kind = interface_of(d, f, place.0, place.1);
        Ok(Beginning { place, text, kind })
    }

    fn is_at(&self, place: Place) -> bool
        ensures { IsTrue result → self.now.place ≡ place }
    {
        self.place == place
    }

    fn turn_to(&mut self, d: &'a Description, f: &Flat, place: Place) -> Result<(), Memory>
        requires { Begins d.now f.now self.old }
        ensures begins { OnOk result (Begins d.now f.now self.new) }
        ensures at { OnOk result (self.new.place ≡ place) }
    {
        if self.is_at(place) {
            return Ok(());
        }
        begin(d, f, place, &mut self.text)?;
        self.kind = interface_of(d, f, place.0, place.1);
        self.place = place;
        Ok(())
    }

    /// Appends `join` and a provided end, and turns to its port.
    fn add_provided(
        &mut self,
        d: &'a Description,
        f: &Flat,
        end: End,
        text: &mut Vec<u8>,
    ) -> Result<(), Memory>
        requires { Begins d.now f.now self.old }
        ensures begins { OnOk result (Begins d.now f.now self.new) }
        ensures added { OnOk result (text.new.items ≡ text.old.items ++ codes "join " ++ end_text d.now f.now end) }
    {
        self.turn_to(d, f, (end.instance, end.port))?;
        text.extend_from_slice(self.text.as_slice())?;
        text.extend_from_slice(name_in(self.kind, end.element))
    }
}

fn add_item_of(d: &Description, port: &Port, element: u32, text: &mut Vec<u8>) -> Result<(), Memory>
    ensures { OnOk result (text.new.items ≡ text.old.items ++ port.now.short_name ++ codes "."
        ++ option_map_or (λ kind. item_name kind element) (option_map (λ i. i.kind) (slice_get d.now.types.interfaces port.now.interface)) []) }
{
    text.extend_from_slice(port.short_name.bytes())?;
    text.push(b'.')?;
    text.extend_from_slice(name_in(interface_at(d, Some(port)), element))
}

fn add_item(d: &Description, f: &Flat, end: End, text: &mut Vec<u8>) -> Result<(), Memory>
    ensures { OnOk result (text.new.items ≡ text.old.items ++ item_text d.now f.now end.instance end.port end.element) }
{
    match port_of(d, f, end.instance, end.port) {
        Some(port) => add_item_of(d, port, end.element, text),
        None => {
            text.push(b'.')?;
            Ok(())
        }
    }
}

/// Appends INSTANCE.PORT.ITEM, or env.PORT.ITEM.
fn add_end(d: &Description, f: &Flat, end: End, text: &mut Vec<u8>) -> Result<(), Memory>
    ensures { OnOk result (text.new.items ≡ text.old.items ++ end_text d.now f.now end) }
{
    text.extend_from_slice(owner_text(f, end.instance))?;
    text.push(b'.')?;
    add_item(d, f, end, text)
}

/// Appends `join PROVIDED REQUIRED`.
fn add_join<'a>(
    d: &'a Description,
    f: &Flat,
    beginning: &mut Beginning<'a>,
    join: Join,
    text: &mut Vec<u8>,
) -> Result<(), Memory>
    requires { Begins d.now f.now beginning.old }
    ensures begins { OnOk result (Begins d.now f.now beginning.new) }
    ensures added { OnOk result (text.new.items ≡ text.old.items ++ join_line d.now f.now join) }
{
    beginning.add_provided(d, f, join.provided, text)?;
    text.push(b' ')?;
    add_end(d, f, join.required, text)?;
    text.push(b'\n')?;
    Ok(())
}

/// Appends the lines of joins.
pub fn add_joins(
    alloc: Global,
    d: &Description,
    f: &Flat,
    joins: &[Join],
    text: &mut Vec<u8>,
) -> Result<(), Memory>
    ensures { OnOk result (text.new.items ≡ text.old.items ++ flat_map (join_line d.now f.now) joins.now) }
{
    let mut beginning = Beginning::new(alloc, d, f, (None, 0))?;
    for join in joins {
        add_join(d, f, &mut beginning, *join, text)?;
    }
    Ok(())
}
