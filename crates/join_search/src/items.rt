//! Required items, and the first that breaks a rule.

ghost use Rattle.std.specs.Prelude.{◌≡◌, ℕ, IfOk, IsTrue, false, true, None, Some, if◌then◌else◌};
ghost use Rattle.description_types.specs.declared.description.PrototypeType.TheVariants as of_type;
ghost use Rattle.plan_definitions.specs.Connectors.{ports_of};
ghost use Rattle.plan_definitions.specs.JoinedItems.{breaks, end_of, first_broken, first_item, in_instances, in_port, in_ports, looked_at, needs_provider, requires_at};

use crate::item::Item;
use crate::partners::Degrees;
use crate::ports::ports_of;
use crate::suspects::Suspects;
use description_types::{
    Description, Flat, Instance, InterfaceKind, Port, PortKind, PrototypeType,
};
use plan_definitions::JoinRule;
use rte_text::Memory;
use std::alloc::Global;

fn looked_at(rule: JoinRule, kind: &InterfaceKind) -> usize
    ensures { result ≡ looked_at rule kind.now }
{
    match (rule, kind) {
        (JoinRule::Services, InterfaceKind::ClientServer(operations)) => operations.len(),
        (JoinRule::Services, InterfaceKind::ModeSwitch(_)) => 1,
        (JoinRule::Groups, InterfaceKind::SenderReceiver(elements)) => elements.len(),
        _ => 0,
    }
}

fn needs_provider(kind: &InterfaceKind, item: &Item) -> bool
    ensures { result ≡ needs_provider kind.now item.now }
{
    match kind {
        InterfaceKind::ModeSwitch(_) => item.instance().is_some(),
        _ => false,
    }
}

fn requires_at(instance: Option<usize>, kind: PortKind) -> bool
    ensures { result ≡ requires_at instance kind }
{
    match kind {
        PortKind::Required => instance.is_some(),
        PortKind::Provided => instance.is_none(),
    }
}

/// A search for the first required item that breaks a rule.
#[derive(Drop)]
pub struct Search<'a> {
    pub d: &'a Description,
    pub f: &'a Flat,
    degrees: Degrees<'a>,
    suspects: Suspects<'a>,
    ghost of_flat: { degrees.joins.now ≡ f.now.joins },
    ghost suspected: { suspects.joins.now ≡ f.now.joins },
}

impl Search<'_> {
    /// A search among the items of a description and of what it is made flat.
    pub fn new<'a>(alloc: Global, d: &'a Description, f: &'a Flat) -> Result<Search<'a>, Memory>
        ensures { IfOk result (λ search. (search.d.now ≡ d.now) × (search.f.now ≡ f.now)) }
    {
        let degrees = Degrees::new(alloc, f.joins.items())?;
        let suspects = Suspects::new(alloc, &degrees)?;
        Ok(Search {
            d,
            f,
            degrees,
            suspects,
        })
    }

    fn breaks(&self, rule: JoinRule, kind: &InterfaceKind, item: &Item) -> bool
        ensures { result ≡ breaks rule self.now.f.now.joins kind.now item.now }
    {
        match rule {
            JoinRule::Services => {
                self.degrees.has_several_providers(item)
                    || (needs_provider(kind, item) && self.degrees.has_no_provider(item))
            }
            JoinRule::Groups => self.suspects.is_crowded(item),
        }
    }

    /// Whether no item of a port breaks the rule, which shows at once if no joined end of the port does.
    fn is_kept_at(
        &self,
        rule: JoinRule,
        instance: Option<usize>,
        port: usize,
        kind: &InterfaceKind,
    ) -> bool
        ensures { IsTrue result → (n : ℕ) → breaks rule self.now.f.now.joins kind.now (end_of instance port n) ≡ false }
    {
        match (rule, kind) {
            (JoinRule::Services, InterfaceKind::ModeSwitch(_)) => false,
            (JoinRule::Services, _) => !self.suspects.may_be_several(instance, port),
            (JoinRule::Groups, _) => !self.suspects.may_be_crowded(instance, port),
        }
    }

    fn first_item(
        &self,
        rule: JoinRule,
        instance: Option<usize>,
        port: usize,
        kind: &InterfaceKind,
    ) -> Option<Item>
        ensures { result ≡ first_item rule self.now.f.now.joins instance port kind.now }
    {
        if self.is_kept_at(rule, instance, port, kind) {
            return None;
        }
        self.first_item_of(rule, instance, port, kind)
    }

    #[tactic(auto, using(crate::proofs::Firsts::number_more))]
    fn first_item_of(
        &self,
        rule: JoinRule,
        instance: Option<usize>,
        port: usize,
        kind: &InterfaceKind,
    ) -> Option<Item>
        ensures { result ≡ first_item rule self.now.f.now.joins instance port kind.now }
    {
        for element in 0..looked_at(rule, kind) {
            let item = Item::new(instance, port, element);
            if self.breaks(rule, kind, &item) {
                return Some(item);
            }
        }
        None
    }

    fn in_port(
        &self,
        rule: JoinRule,
        instance: Option<usize>,
        number: usize,
        port: &Port,
    ) -> Option<Item>
        ensures { result ≡ in_port rule self.now.d.now self.now.f.now instance number port.now }
    {
        let interfaces = self.d.types.interfaces.items();
        match interfaces.get(port.interface as usize) {
            Some(interface) => self.first_item(rule, instance, number, &interface.kind),
            None => None,
        }
    }

    fn in_requiring_port(
        &self,
        rule: JoinRule,
        instance: Option<usize>,
        number: usize,
        port: &Port,
    ) -> Option<Item>
        ensures { result ≡ (if requires_at instance port.now.kind then in_port rule self.now.d.now self.now.f.now instance number port.now else None) }
    {
        if requires_at(instance, port.kind) {
            self.in_port(rule, instance, number, port)
        } else {
            None
        }
    }

    #[tactic(auto, using(plan_definitions::proofs::Turns::first_more, plan_definitions::proofs::Turns::first_here, plan_definitions::proofs::Turns::first_none))]
    fn in_ports(&self, rule: JoinRule, instance: Option<usize>, ports: &[Port]) -> Option<Item>
        ensures { result ≡ in_ports rule self.now.d.now self.now.f.now instance ports.now }
    {
        for (number, port) in ports.iter().enumerate() {
            if let Some(item) = self.in_requiring_port(rule, instance, number, port) {
                return Some(item);
            }
        }
        None
    }

    fn in_instance(&self, rule: JoinRule, number: usize, instance: &Instance) -> Option<Item>
        ensures { result ≡ in_ports rule self.now.d.now self.now.f.now (Some number) (ports_of self.now.d.now (of_type.Component instance.now.component)) }
    {
        let ports = ports_of(self.d, PrototypeType::Component(instance.component));
        self.in_ports(rule, Some(number), ports)
    }

    #[tactic(auto, using(plan_definitions::proofs::Turns::first_more, plan_definitions::proofs::Turns::first_here, plan_definitions::proofs::Turns::first_none))]
    fn in_instances(&self, rule: JoinRule) -> Option<Item>
        ensures { result ≡ in_instances rule self.now.d.now self.now.f.now }
    {
        for (number, instance) in self.f.instances.items().iter().enumerate() {
            if let Some(item) = self.in_instance(rule, number, instance) {
                return Some(item);
            }
        }
        None
    }

    /// The first required item that breaks the rule.
    pub fn first_broken(&self, rule: JoinRule) -> Option<Item>
        ensures { result ≡ first_broken rule self.now.d.now self.now.f.now }
    {
        match self.in_instances(rule) {
            Some(item) => Some(item),
            None => {
                let root = PrototypeType::Composition(self.d.root);
                self.in_ports(rule, None, ports_of(self.d, root))
            }
        }
    }
}
