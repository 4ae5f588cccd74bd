//! The command `run C S`.

ghost use Rattle.std.specs.Prelude.{◌≡◌, ◌≤◌, ◌⊎◌, ◌∷◌, ℕ, List, [], length, IfOk};
ghost use Rattle.rte_text.specs.Counts.{Rose};
ghost use Rattle.rte_text.specs.Sinks.{AppendsPrefixWhereTold, AppendsWhereTold};
ghost use Rattle.bus_semantics.specs.Plan.{plan_of};
ghost use Rattle.core_runtime.specs.Nodes.{IsLawfulNode};
ghost use Rattle.description_stages.specs.Plans.{IsPlannedOf};
ghost use Rattle.commands.specs.declared.status.Status.TheVariants as status;
ghost use Rattle.commands.specs.Carrying.{world, CarriesOut, Ends};
ghost use Rattle.commands.specs.Commands.{run};
ghost use Rattle.commands.specs.Inputs.{AreInputs};
ghost use Rattle.rte_program.specs.Running.{IsRun};
ghost use Rattle.script_reading.specs.Reading.{IsScript};

use bus_semantics::{Script, Version};
use commands::{Prepared, Status, fetch_all, judge, report};
use core_runtime::Node;
use description_stages::PlannedDescription;
use rte_text::{Gate, Shelf, Sink};
use script_reading::scripts_are_carriable;
use script_run::{ScriptRun, run_script, runs_from_nothing_are_runs};
use std::alloc::{AllocError, Global};
use std::thread::Threads;
use task_generator::generate;

/// A node of the plan to which nothing has happened, with the bodies of the plan's programs. The only error is that there is no memory.
pub fn new_node(alloc: Global, found: PlannedDescription) -> Result<Node, AllocError>
    requires planned { (d : List ℕ) × IsPlannedOf d found }
    ensures plan { IfOk result (λ n. n.plan ≡ found.plan) }
    ensures mapping { IfOk result (λ n. n.mapping ≡ found.mapping) }
    ensures lawful { IfOk result (λ n. IsLawfulNode n []) }
{
    match generate(alloc, &found.plan, &found.mapping) {
        Ok(bodies) => {
            let PlannedDescription {
                description,
                flat,
                plan,
                mapping,
            } = found;
            drop(description);
            drop(flat);
            Node::new(alloc, plan, mapping, bodies)
        }
        Err(memory) => {
            drop(found);
            Err(memory)
        }
    }
}

/// Runs the script on a node to which nothing has happened, and puts the trace, in version two.
fn run_node<R: Threads + Sync, K: Sink, G: Gate>(
    rt: &R,
    alloc: Global,
    node: &mut Node,
    script: &Script,
    out: &mut K,
    gate: &G,
) -> Status
    requires lawful { IsLawfulNode node.old [] }
    requires scripted { (s : List ℕ) × IsScript (plan_of node.old.plan) s script.now.lines }
    ensures { IsRun (plan_of node.old.plan) node.old.mapping script.now.lines result
        (K.told out.old) (K.told out.new) (K.faults out.old) (K.faults out.new) }
{
    scripts_are_carriable();
    runs_from_nothing_are_runs();
    match run_script(rt, alloc, node, script, Version::Two, out, gate) {
        ScriptRun::Finished => Status::Done,
        ScriptRun::Failed => Status::NotWritten,
        ScriptRun::Memory => Status::Memory,
    }
}

/// Runs the script on a new node of the plan, and puts the trace, in version two. Want of memory may come before the first line is
/// put or within a run line.
pub fn run_prepared<R: Threads + Sync, K: Sink, G: Gate>(
    rt: &R,
    alloc: Global,
    prepared: Prepared,
    out: &mut K,
    gate: &G,
) -> Status
    requires ready { (d s : List ℕ) × AreInputs d s prepared.found prepared.script.lines }
    ensures { IsRun (plan_of prepared.found.plan) prepared.found.mapping prepared.script.lines result
        (K.told out.old) (K.told out.new) (K.faults out.old) (K.faults out.new) }
{
    let script = prepared.script;
    match new_node(alloc, prepared.found) {
        Ok(mut node) => {
            let status = run_node(rt, alloc, &mut node, &script, out, gate);
            drop(node);
            drop(script);
            status
        }
        Err(_) => Status::Memory,
    }
}

/// Runs the script on the bus of the description, from their bytes, and puts the trace.
fn run_files<R: Threads + Sync, K: Sink, G: Gate>(
    rt: &R,
    alloc: Global,
    description: &[u8],
    script: &[u8],
    out: &mut K,
    gate: &G,
) -> Status
    requires description { length description.now ≤ 8388608 }
    requires script { length script.now ≤ 8388608 }
    ensures { (d s : List ℕ) → CarriesOut (run d s) (description.now ∷ script.now ∷ []) result
        (K.told out.old) (K.told out.new) (K.faults out.old) (K.faults out.new) }
{
    match judge(alloc, description, script) {
        Ok(prepared) => run_prepared(rt, alloc, prepared, out, gate),
        Err(stop) => report(alloc, &stop, out),
    }
}

/// Carries out `run C S`: reads the description C and the script S from the shelf, runs the script on the bus of
/// the description, and puts the trace, in version two.
pub fn run_named<R: Threads + Sync, S: Shelf, K: Sink, G: Gate>(
    rt: &R,
    alloc: Global,
    description: &str,
    script: &str,
    shelf: &mut S,
    out: &mut K,
    gate: &G,
) -> Status
    ensures files_stay { S.files shelf.new ≡ S.files shelf.old }
    ensures ends { Ends (run description.now script.now) result
        (world (S.files shelf.old) (S.faults shelf.old) (S.long_files shelf.old) (S.fetches shelf.old) (K.told out.old) (K.faults out.old))
        (world (S.files shelf.new) (S.faults shelf.new) (S.long_files shelf.new) (S.fetches shelf.new) (K.told out.new) (K.faults out.new)) }
{
    match fetch_all(alloc, shelf, &[description, script]) {
        Ok(files) => run_files(
            rt,
            alloc,
            files[0].as_slice(),
            files[1].as_slice(),
            out,
            gate,
        ),
        Err(stop) => report(alloc, &stop, out),
    }
}
