//! Interfaces, mode groups and com specs.

use crate::base_type::DataType;
use rte_text::{Seq, Text};
use rte_value::{Code, Word};

/// A group of modes that exclude each other (ModeDeclarationGroup).
#[derive(Drop)]
pub struct ModeGroup {
    pub short_name: Text,
    /// The names of its 1 to 32 modes (ModeDeclaration), in the order that numbers them from 0.
    pub modes: Seq<Text>,
    /// The mode in which it begins, by its number.
    pub initial_mode: u32,
}

/// What two ports may exchange (PortInterface).
#[derive(Drop)]
pub struct Interface {
    pub short_name: Text,
    pub kind: InterfaceKind,
}

/// The kinds of interfaces, with their items in declared order. An item is named by its position there, the mode element by 0.
#[derive(Drop)]
pub enum InterfaceKind {
    /// SenderReceiverInterface.
    SenderReceiver(Seq<DataElement>),
    /// ClientServerInterface.
    ClientServer(Seq<Operation>),
    /// ModeSwitchInterface.
    ModeSwitch(ModeElement),
}

/// A data element (VariableDataPrototype).
#[derive(Drop)]
pub struct DataElement {
    pub short_name: Text,
    /// The position of its data type.
    pub of_type: u32,
    pub sw_impl_policy: SwImplPolicy,
}

/// How a data element is kept (swImplPolicy).
#[derive(Clone, Copy, Debug, PartialEq, Eq)]
pub enum SwImplPolicy {
    /// The last value is kept.
    Standard,
    /// Values are kept in a queue.
    Queued,
}

/// An operation that a server carries out (ClientServerOperation).
#[derive(Drop)]
pub struct Operation {
    pub short_name: Text,
    pub arguments: Seq<Argument>,
    pub errors: Seq<ApplicationError>,
}

/// An argument of an operation (ArgumentDataPrototype).
#[derive(Drop)]
pub struct Argument {
    pub short_name: Text,
    /// The position of its data type.
    pub of_type: u32,
    pub direction: Direction,
}

/// Which way an argument goes (ArgumentDirectionEnum).
#[derive(Clone, Copy, Debug, PartialEq, Eq)]
pub enum Direction {
    /// From the client to the server.
    In,
    /// From the server to the client.
    Out,
}

/// An error that an operation may answer (ApplicationError).
#[derive(Drop)]
pub struct ApplicationError {
    pub short_name: Text,
    /// 1 to 63.
    pub code: Code,
}

/// The mode element of an interface (ModeDeclarationGroupPrototype).
#[derive(Drop)]
pub struct ModeElement {
    pub short_name: Text,
    /// The position of its mode group.
    pub of_type: u32,
}

/// What a port says of one item of its interface (PPortComSpec, RPortComSpec).
#[derive(Drop)]
pub struct ComSpec {
    /// The item, by its position in the interface of the port.
    pub element: u32,
    /// The words before the first write; None if the description gives none.
    pub init_value: Option<Seq<Word>>,
    /// A read before the first write answers that nothing was received. False if the description does not say.
    pub handle_never_received: bool,
    /// How many values, requests or switches wait at most, 1 to 1,024. 1 if the description does not say.
    pub queue_length: u32,
    /// A mode switch need not wait, before its on-exit events, for what the next mode disables to end
    /// (ModeSwitchReceiverComSpec). False if the description does not say.
    pub supports_asynchronous_mode_switch: bool,
}

/// The types of a description, each list in declared order.
#[derive(Drop)]
pub struct TypeTable {
    pub data_types: Seq<DataType>,
    pub mode_groups: Seq<ModeGroup>,
    pub interfaces: Seq<Interface>,
}
