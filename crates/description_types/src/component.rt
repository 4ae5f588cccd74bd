//! Components: ports and internal behaviour.

use crate::interface::ComSpec;
use rte_text::{Seq, Text};
use rte_value::Word;
use runnable_lang::{AccessKind, Program};
use std::alloc::Global;
use std::sync::Arc;

/// A component (ApplicationSwComponentType).
#[derive(Drop)]
pub struct Component {
    pub short_name: Text,
    pub ports: Seq<Port>,
    pub behavior: Behavior,
}

/// A port of a component or composition (PortPrototype).
#[derive(Drop)]
pub struct Port {
    pub kind: PortKind,
    pub short_name: Text,
    /// The position of its interface.
    pub interface: u32,
    pub com_specs: Seq<ComSpec>,
}

/// Whether a port provides what its interface says, or requires it.
#[derive(Clone, Copy, Debug, PartialEq, Eq)]
pub enum PortKind {
    /// PPortPrototype.
    Provided,
    /// RPortPrototype.
    Required,
}

/// What a component does (SwcInternalBehavior).
#[derive(Drop)]
pub struct Behavior {
    /// The names of its exclusive areas (ExclusiveArea). An area inside another is declared after it.
    pub exclusive_areas: Seq<Text>,
    /// Its inter-runnable variables.
    pub variables: Seq<Variable>,
    pub runnables: Seq<Runnable>,
    pub events: Seq<Event>,
}

/// An inter-runnable variable (VariableDataPrototype).
#[derive(Drop)]
pub struct Variable {
    pub short_name: Text,
    /// The position of its data type.
    pub of_type: u32,
    /// The words before the first write; None if the description gives none.
    pub init_value: Option<Seq<Word>>,
}

/// A runnable (RunnableEntity).
#[derive(Drop)]
pub struct Runnable {
    pub short_name: Text,
    /// False if the description does not say.
    pub can_be_invoked_concurrently: bool,
    pub accesses: Seq<Access>,
    /// Its coherent access lists: the items of each are fetched at one moment, or published at one.
    pub coherent: Seq<Seq<ItemPair>>,
    /// Its program, which the plan of each instance shares.
    pub program: Arc<Program, Global>,
}

/// What a runnable may do: an access, as `AccessSig` numbers it.
#[derive(Clone, Copy, Debug, PartialEq, Eq)]
pub struct Access {
    pub kind: AccessKind,
    /// The position of the port in the component, and 0 for a variable or an area.
    pub port: u32,
    /// The position of the item in the port's interface, or of the variable or area in the component, and 0 for `Switch` and
    /// `Mode`.
    pub item: u32,
}

/// An item of a port, as a coherent access list names it.
#[derive(Clone, Copy, Debug, PartialEq, Eq)]
pub struct ItemPair {
    /// The position of the port in the component.
    pub port: u32,
    /// The position of the item in the port's interface.
    pub item: u32,
}

/// An event that starts a runnable (RTEEvent).
#[derive(Drop)]
pub struct Event {
    pub short_name: Text,
    /// The position of the runnable.
    pub runnable: u32,
    pub kind: EventKind,
    /// The modes in which the event starts nothing.
    pub disabled_in_modes: Option<DisabledInModes>,
}

/// The kind of an event. A `port` is a position in the component, an `element` or `operation` one among the items of the
/// port's interface.
#[derive(Clone, Copy, Debug, PartialEq, Eq)]
pub enum EventKind {
    /// TimingEvent, with its period in milliseconds, 1 to 1,000,000.
    Timing {
        period: u32,
    },
    /// InitEvent.
    Init,
    /// DataReceivedEvent.
    DataReceived {
        port: u32,
        element: u32,
    },
    /// OperationInvokedEvent.
    OperationInvoked {
        port: u32,
        operation: u32,
    },
    /// AsynchronousServerCallReturnsEvent.
    CallReturns {
        port: u32,
        operation: u32,
    },
    /// SwcModeSwitchEvent.
    ModeSwitch {
        port: u32,
        activation: ModeActivation,
    },
    /// ModeSwitchedAckEvent.
    ModeSwitchedAck {
        port: u32,
    },
}

/// The moment of a mode switch at which an event comes (ModeActivationKind), with its modes by number. A mode that the port's
/// group does not have has the number of modes of that group, and 0 if the port has no modes.
#[derive(Clone, Copy, Debug, PartialEq, Eq)]
pub enum ModeActivation {
    OnEntry(u32),
    OnExit(u32),
    /// From the first mode to the second.
    OnTransition(u32, u32),
}

/// The modes in which an event starts nothing (ModeDisablingDependency), numbered as those of a `ModeActivation`.
#[derive(Drop)]
pub struct DisabledInModes {
    /// The position of the port whose modes they are.
    pub port: u32,
    pub modes: Seq<u32>,
}
