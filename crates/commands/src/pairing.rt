//! What is read before a run of two nodes: two descriptions, the links between them, and the script.
//!
//! # Decisions
//!
//! **What is looked at first?** The first description, then the second, then the links, then the script, each only if those before it hold. So
//! there is one right answer to three files, as to those of every command, and `no link` says nothing of the script.
//!
//! **What does a refusal of one of two descriptions look like?** The line of a rule with ` of 1` or ` of 2` behind the place. So it is a
//! finding of its own: a refusal of one description never says of which.

ghost use Rattle.std.specs.Prelude.{◌≡◌, ◌<◌, ℕ, List, length, IfErr, IfOk};
ghost use Rattle.bus_semantics.specs.Plan.{plan_of};
ghost use Rattle.declared_names.specs.Sizes.{AreFew};
ghost use Rattle.script_reading.specs.Reading.{IsScriptBy};
ghost use Rattle.pair_run.specs.Linked.{links_of};
ghost use Rattle.commands.specs.Judging.{IsNotPaired, stopped_at};
ghost use Rattle.commands.specs.PairCommand.{AreDescribed, ArePairInputs, pair_saying};

use crate::stop::{Finding, Stop};
use bus_semantics::Script;
use description_stages::{PlannedDescription, plan_description};
use pair_run::{make_links, read_pair_script};
use rte_text::Refused;
use script_run::ScriptRead;
use signal_link::LinkElem;
use std::alloc::Global;

/// Two descriptions with their plans.
#[derive(Drop)]
pub struct PlannedPair {
    pub one: PlannedDescription,
    pub two: PlannedDescription,
}

/// The links of two nodes, and a script over both.
#[derive(Drop)]
pub struct LinkedScript {
    pub links: Vec<LinkElem>,
    pub script: Script,
}

/// Two descriptions with their plans and what links them, and a script over both.
#[derive(Drop)]
pub struct PreparedPair {
    pub nodes: PlannedPair,
    pub linked: LinkedScript,
}

/// Why the description at this place stops a run.
fn stop_at(refused: Refused, which: u8) -> Stop
    ensures { result ≡ stopped_at refused which }
{
    match refused {
        Refused::Rule(refusal) => Stop::Found(Finding::RefusedOf { refusal, which }),
        Refused::Memory => Stop::Memory,
    }
}

/// The plans that the bytes of two descriptions stand for: they break none of the rules. The second is judged only if the first keeps them.
fn plan_both(alloc: Global, one: &[u8], two: &[u8]) -> Result<PlannedPair, Stop>
    requires one { AreFew one.now }
    requires two { AreFew two.now }
    ensures planned { IfOk result (λ x. AreDescribed one.now two.now x.one x.two) }
    ensures stopped { IfErr result (λ why. (s : List ℕ) → IsNotPaired one.now two.now s why) }
{
    let found = match plan_description(alloc, one) {
        Ok(found) => found,
        Err(refused) => return Err(stop_at(refused, 1)),
    };
    match plan_description(alloc, two) {
        Ok(beside) => Ok(PlannedPair {
            one: found,
            two: beside,
        }),
        Err(refused) => {
            drop(found);
            Err(stop_at(refused, 2))
        }
    }
}

/// The links between the two, of which there is at least one.
fn links_between(alloc: Global, nodes: &PlannedPair) -> Result<Vec<LinkElem>, Stop>
    requires { (c d : List ℕ) × AreDescribed c d nodes.now.one nodes.now.two }
    ensures links { IfOk result (λ links. links.items ≡ links_of (plan_of nodes.now.one.plan) (plan_of nodes.now.two.plan)) }
    ensures some { IfOk result (λ links. 0 < length links.items) }
    ensures stopped { IfErr result (λ why. (c d s : List ℕ) → AreDescribed c d nodes.now.one nodes.now.two → IsNotPaired c d s why) }
{
    match make_links(alloc, &nodes.one.plan, &nodes.two.plan) {
        Ok(links) => {
            if links.is_empty() {
                drop(links);
                Err(Stop::Found(Finding::NoLink))
            } else {
                Ok(links)
            }
        }
        Err(_) => Err(Stop::Memory),
    }
}

/// The script that the bytes are over the two, with these links between them.
fn script_over_links(
    alloc: Global,
    nodes: &PlannedPair,
    links: &[LinkElem],
    script: &[u8],
) -> Result<Script, Stop>
    requires planned { (c d : List ℕ) × AreDescribed c d nodes.now.one nodes.now.two }
    requires links { links.now ≡ links_of (plan_of nodes.now.one.plan) (plan_of nodes.now.two.plan) }
    requires some { 0 < length links.now }
    ensures scripted { IfOk result (λ x. IsScriptBy
        (pair_saying (plan_of nodes.now.one.plan) (plan_of nodes.now.two.plan)) script.now x.lines) }
    ensures stopped { IfErr result (λ why. (c d : List ℕ) → AreDescribed c d nodes.now.one nodes.now.two → IsNotPaired c d script.now why) }
{
    match read_pair_script(alloc, &nodes.one.plan, links, script) {
        ScriptRead::Read(script) => Ok(script),
        ScriptRead::BadLine { line, cause } => Err(Stop::Found(Finding::Script { line, cause })),
        ScriptRead::Memory => Err(Stop::Memory),
    }
}

/// The links between the two, and the script over both.
fn link_over(alloc: Global, nodes: &PlannedPair, script: &[u8]) -> Result<LinkedScript, Stop>
    requires { (c d : List ℕ) × AreDescribed c d nodes.now.one nodes.now.two }
    ensures links { IfOk result (λ x. x.links.items ≡ links_of (plan_of nodes.now.one.plan) (plan_of nodes.now.two.plan)) }
    ensures some { IfOk result (λ x. 0 < length x.links.items) }
    ensures scripted { IfOk result (λ x. IsScriptBy
        (pair_saying (plan_of nodes.now.one.plan) (plan_of nodes.now.two.plan)) script.now x.script.lines) }
    ensures stopped { IfErr result (λ why. (c d : List ℕ) → AreDescribed c d nodes.now.one nodes.now.two → IsNotPaired c d script.now why) }
{
    let links = match links_between(alloc, nodes) {
        Ok(links) => links,
        Err(stop) => return Err(stop),
    };
    match script_over_links(alloc, nodes, links.as_slice(), script) {
        Ok(script) => Ok(LinkedScript { links, script }),
        Err(stop) => {
            drop(links);
            Err(stop)
        }
    }
}

/// Reads the two descriptions, finds what links them, and reads the script. Nothing is linked only where neither breaks a rule, and a line of
/// the script is judged only where something is.
pub fn judge_pair(
    alloc: Global,
    one: &[u8],
    two: &[u8],
    script: &[u8],
) -> Result<PreparedPair, Stop>
    requires one { AreFew one.now }
    requires two { AreFew two.now }
    ensures ready { IfOk result (λ x. ArePairInputs one.now two.now script.now x.nodes.one x.nodes.two x.linked.script.lines) }
    ensures links { IfOk result (λ x. x.linked.links.items ≡ links_of (plan_of x.nodes.one.plan) (plan_of x.nodes.two.plan)) }
    ensures stopped { IfErr result (IsNotPaired one.now two.now script.now) }
{
    let nodes = match plan_both(alloc, one, two) {
        Ok(nodes) => nodes,
        Err(stop) => return Err(stop),
    };
    match link_over(alloc, &nodes, script) {
        Ok(linked) => Ok(PreparedPair { nodes, linked }),
        Err(stop) => {
            drop(nodes);
            Err(stop)
        }
    }
}
