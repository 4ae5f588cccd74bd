//! What stands around a program: the fetches before it, and the publications and the return behind it.

ghost use Rattle.std.specs.Prelude.{◌≡◌, ◌≤◌, ◌++◌, ◌∷◌, [], length, OnOk, IfOk, map};
ghost use Rattle.bus_semantics.specs.Common.{option_copied, plan_of, runnable_of, elems_of, all_of, fetches_of, publications_of};
ghost use Rattle.implicit_buffers.specs.Fetchings.{implicit_of, implicits_of};
ghost use Rattle.task_machine.specs.Instructions.{instruction_of};
ghost use Rattle.task_generator.specs.Servers.{served, arguments_in, in_places};
ghost use Rattle.task_generator.specs.Code.{slots_among, parts_of, fetching_code, publishing_code, returning_code};
ghost use Rattle.task_generator.specs.Shared.{fixed, before_code, after_code};

use crate::Memory;
use crate::code::{put, put_call};
use crate::targets::slot_of;
use bus_semantics::{ArgPlan, BusPlan, RunnablePlan, ServerPlan};
use implicit_buffers::{Fetching, fetches_of, publications_of};
use rte_text::Seq;
use std::alloc::Global;
use task_machine::{Instr, Request, Returned, SlotPart, Taken};

/// The server of this number.
pub fn served(servers: &[ServerPlan], server: Option<u32>) -> Option<&ServerPlan>
    ensures { option_copied result ≡ served servers.now server }
{
    match server {
        Some(number) => servers.get(number as usize),
        None => None,
    }
}

/// The variables of the `in` arguments, of which there are at most 16, in order.
pub fn in_places(alloc: Global, arguments: &[ArgPlan]) -> Result<Vec<u32>, Memory>
    requires few { length arguments.now ≤ 16 }
    ensures { IfOk result (λ places. places.items ≡ in_places 0 arguments.now) }
{
    let mut places = Vec::new(alloc);
    for (place, argument) in arguments.iter().enumerate() {
        if !argument.out {
            places.push(place as u32)?;
        }
    }
    Ok(places)
}

/// The slots of some elements among these, and how many words each has.
fn parts_of(
    alloc: Global,
    p: &BusPlan,
    elements: &[u32],
    some: &[u32],
) -> Result<Vec<SlotPart>, Memory>
    ensures { IfOk result (λ parts. parts.items ≡ parts_of (plan_of p.now) elements.now some.now) }
{
    let mut parts = Vec::new(alloc);
    for elem in some {
        let slot = slot_of(elements, *elem);
        let words = p.words_at(*elem);
        parts.push(SlotPart { slot, words })?;
    }
    Ok(parts)
}

/// The slots of some elements among these.
fn slots_among(alloc: Global, elements: &[u32], some: &[u32]) -> Result<Vec<usize>, Memory>
    ensures { IfOk result (λ slots. slots.items ≡ slots_among elements.now some.now) }
{
    let mut slots = Vec::new(alloc);
    for elem in some {
        slots.push(slot_of(elements, *elem))?;
    }
    Ok(slots)
}

/// A fetch of an element into its slot, or of the elements of a coherent list into theirs.
fn put_fetch(
    alloc: Global,
    code: &mut Vec<Instr>,
    p: &BusPlan,
    elements: &[u32],
    fetch: &Fetching,
) -> Result<(), Memory>
    ensures { OnOk result (map instruction_of code.new.items ≡ map instruction_of code.old.items ++ map fixed (fetching_code (plan_of p.now) elements.now (implicit_of fetch.now ∷ []))) }
{
    match fetch {
        Fetching::One(elem) => {
            let slot = slot_of(elements, *elem);
            put_call(code, Request::Fetch { elem: *elem }, 0, Taken::Slot(slot))
        }
        Fetching::List(list) => {
            let parts = parts_of(alloc, p, elements, p.elems_of(*list))?;
            let taken = Taken::Slots(Seq::of(parts));
            put_call(code, Request::FetchAll { list: *list }, 0, taken)
        }
    }
}

/// All fetches (SWS_RTE: Rte_IRead, Rte_IrvIRead).
fn put_fetches(
    alloc: Global,
    code: &mut Vec<Instr>,
    p: &BusPlan,
    elements: &[u32],
    fetches: &[Fetching],
) -> Result<(), Memory>
    ensures { OnOk result (map instruction_of code.new.items ≡ map instruction_of code.old.items ++ map fixed (fetching_code (plan_of p.now) elements.now (implicits_of fetches.now))) }
{
    for fetch in fetches {
        put_fetch(alloc, code, p, elements, fetch)?;
    }
    Ok(())
}

/// The slots of the elements of a coherent list.
fn slots_of_list(
    alloc: Global,
    p: &BusPlan,
    elements: &[u32],
    list: u32,
) -> Result<Seq<usize>, Memory>
    ensures { IfOk result (λ slots. slots ≡ slots_among elements.now (elems_of (plan_of p.now) list)) }
{
    let slots = slots_among(alloc, elements, p.elems_of(list))?;
    Ok(Seq::of(slots))
}

/// The publication of a coherent list, which is passed over if nothing was written into any slot.
fn put_list_publication(
    alloc: Global,
    code: &mut Vec<Instr>,
    p: &BusPlan,
    elements: &[u32],
    list: u32,
) -> Result<(), Memory>
    ensures { OnOk result (map instruction_of code.new.items ≡ map instruction_of code.old.items ++ map fixed (publishing_code (plan_of p.now) elements.now (all_of list ∷ []))) }
{
    let passed = slots_of_list(alloc, p, elements, list)?;
    let slots = slots_of_list(alloc, p, elements, list)?;
    put(
        code,
        Instr::NoneWritten {
            slots: passed,
            past: 1,
        },
    )?;
    put_call(code, Request::PublishAll { list, slots }, 0, Taken::Nothing)?;
    Ok(())
}

/// The publication of an element, which is passed over if nothing was written, or of a coherent list.
fn put_publication(
    alloc: Global,
    code: &mut Vec<Instr>,
    p: &BusPlan,
    elements: &[u32],
    publication: &Fetching,
) -> Result<(), Memory>
    ensures { OnOk result (map instruction_of code.new.items ≡ map instruction_of code.old.items ++ map fixed (publishing_code (plan_of p.now) elements.now (implicit_of publication.now ∷ []))) }
{
    match publication {
        Fetching::One(elem) => {
            let elem = *elem;
            let slot = slot_of(elements, elem);
            put(code, Instr::Unwritten { slot, past: 1 })?;
            put_call(code, Request::Publish { elem, slot }, 0, Taken::Nothing)?;
            Ok(())
        }
        Fetching::List(list) => put_list_publication(alloc, code, p, elements, *list),
    }
}

/// All publications (SWS_RTE: Rte_IWrite, Rte_IrvIWrite).
fn put_publications(
    alloc: Global,
    code: &mut Vec<Instr>,
    p: &BusPlan,
    elements: &[u32],
    publications: &[Fetching],
) -> Result<(), Memory>
    ensures { OnOk result (map instruction_of code.new.items ≡ map instruction_of code.old.items ++ map fixed (publishing_code (plan_of p.now) elements.now (implicits_of publications.now))) }
{
    for publication in publications {
        put_publication(alloc, code, p, elements, publication)?;
    }
    Ok(())
}

/// The return of a server, which has at most 16 arguments.
fn put_return(
    alloc: Global,
    code: &mut Vec<Instr>,
    server: Option<&ServerPlan>,
) -> Result<(), Memory>
    requires few { length (arguments_in (option_copied server)) ≤ 16 }
    ensures { OnOk result (map instruction_of code.new.items ≡ map instruction_of code.old.items ++ map fixed (returning_code (option_copied server.entry))) }
{
    let Some(server) = server else {
        return Ok(());
    };
    let errors = Vec::from_slice(alloc, server.errors.items())?;
    let arguments = Vec::from_slice(alloc, server.arguments.items())?;
    match Returned::new(Seq::of(errors), arguments) {
        Some(returned) => put_call(code, Request::Return(returned), 0, Taken::Nothing),
        None => unreachable!(),
    }
}

/// The instructions around a program, and how many of them stand before it.
#[derive(Drop)]
pub struct Around {
    pub code: Vec<Instr>,
    pub before: usize,
}

/// The instructions around the program of a runnable, which fetches these elements, publishes those, and returns as a server that has at
/// most 16 arguments.
pub fn around_of(
    alloc: Global,
    p: &BusPlan,
    runnable: &RunnablePlan,
    fetched: &[u32],
    published: &[u32],
) -> Result<Around, Memory>
    requires few { length (arguments_in (served (plan_of p.now).servers (runnable_of runnable.now).server)) ≤ 16 }
    ensures code { IfOk result (λ a. map instruction_of a.code.items ≡ map fixed (before_code (plan_of p.now) fetched.now (fetches_of (plan_of p.now) (runnable_of runnable.now)))
        ++ map fixed (after_code (plan_of p.now) published.now (publications_of (plan_of p.now) (runnable_of runnable.now)) (served (plan_of p.now).servers (runnable_of runnable.now).server))) }
    ensures before { IfOk result (λ a. a.before ≡ length (before_code (plan_of p.now) fetched.now (fetches_of (plan_of p.now) (runnable_of runnable.now)))) }
{
    let fetches = fetches_of(alloc, p, runnable)?;
    let publications = publications_of(alloc, p, runnable)?;
    let server = served(p.servers.items(), runnable.server);
    let mut code = Vec::new(alloc);
    put_call(&mut code, Request::Admit, 0, Taken::Nothing)?;
    put_fetches(alloc, &mut code, p, fetched, fetches.as_slice())?;
    let before = code.len();
    put_publications(alloc, &mut code, p, published, publications.as_slice())?;
    put_return(alloc, &mut code, server)?;
    put_call(&mut code, Request::End, 0, Taken::Nothing)?;
    Ok(Around { code, before })
}
