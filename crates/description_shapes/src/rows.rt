//! The parts of arrays, and words.

ghost use Rattle.std.specs.Prelude.{◌≡◌, map};
ghost use Rattle.description_shapes.specs.Rows.{row_of, words_of, text_of};

use crate::kind::Kind;

/// The kinds of the parts of an array of this kind, in order, and none of another kind.
pub fn row_of(kind: Kind) -> &'static [Kind]
    ensures { result.now ≡ row_of kind }
{
    match kind {
        Kind::PortOfPrototype => &[Kind::JoinedPrototype, Kind::JoinedPort],
        Kind::ItemAccess => &[Kind::Anything, Kind::ComponentPort, Kind::AccessItem],
        Kind::VariableAccess => &[Kind::Anything, Kind::VariableName],
        Kind::PortAccess => &[Kind::Anything, Kind::ComponentPort],
        Kind::AreaAccess => &[Kind::Anything, Kind::AreaName],
        Kind::ItemPair => &[Kind::ComponentPort, Kind::PairItem],
        Kind::SetStatement => &[Kind::Anything, Kind::LocalName, Kind::Expression],
        Kind::IfStatement => &[
            Kind::Anything,
            Kind::Expression,
            Kind::Statements,
            Kind::Statements,
        ],
        Kind::RepeatStatement => &[Kind::Anything, Kind::RepeatCount, Kind::Statements],
        Kind::AreaStatement => &[Kind::Anything, Kind::AreaName, Kind::Statements],
        Kind::GivingStatement => &[
            Kind::Anything,
            Kind::ComponentPort,
            Kind::AccessItem,
            Kind::Expressions,
            Kind::LocalName,
        ],
        Kind::TakingStatement => &[
            Kind::Anything,
            Kind::ComponentPort,
            Kind::AccessItem,
            Kind::LocalNames,
            Kind::LocalName,
        ],
        Kind::ItemStatement => &[
            Kind::Anything,
            Kind::ComponentPort,
            Kind::AccessItem,
            Kind::LocalName,
        ],
        Kind::LateWrite => &[
            Kind::Anything,
            Kind::ComponentPort,
            Kind::AccessItem,
            Kind::Expressions,
        ],
        Kind::EarlyRead => &[
            Kind::Anything,
            Kind::ComponentPort,
            Kind::AccessItem,
            Kind::LocalNames,
        ],
        Kind::VariableWrite => &[Kind::Anything, Kind::VariableName, Kind::Expressions],
        Kind::VariableRead => &[Kind::Anything, Kind::VariableName, Kind::LocalNames],
        Kind::CallStatement => &[
            Kind::Anything,
            Kind::ComponentPort,
            Kind::AccessItem,
            Kind::Expressions,
            Kind::LocalNames,
            Kind::LocalName,
        ],
        Kind::SwitchStatement => &[
            Kind::Anything,
            Kind::ComponentPort,
            Kind::ModeName,
            Kind::LocalName,
        ],
        Kind::ModeStatement => &[Kind::Anything, Kind::ComponentPort, Kind::LocalName],
        Kind::Operator => &[Kind::Anything, Kind::Expression, Kind::Expression],
        _ => &[],
    }
}

/// The words that a value of this kind may be, and none of another kind.
pub fn words_of(kind: Kind) -> &'static [&'static str]
    ensures { map text_of result.now ≡ words_of kind }
{
    match kind {
        Kind::BaseType => &[
            "boolean", "uint8", "uint16", "uint32", "sint8", "sint16", "sint32",
        ],
        Kind::Policy => &["standard", "queued"],
        Kind::Direction => &["in", "out"],
        Kind::PortKind => &["PPortPrototype", "RPortPrototype"],
        Kind::InterfaceKind => &[
            "SenderReceiverInterface",
            "ClientServerInterface",
            "ModeSwitchInterface",
        ],
        Kind::EventKind => &[
            "TimingEvent",
            "InitEvent",
            "DataReceivedEvent",
            "OperationInvokedEvent",
            "AsynchronousServerCallReturnsEvent",
            "SwcModeSwitchEvent",
            "ModeSwitchedAckEvent",
        ],
        Kind::ConnectorKind => &["AssemblySwConnector", "DelegationSwConnector"],
        Kind::Activation => &["onEntry", "onExit", "onTransition"],
        _ => &[],
    }
}
