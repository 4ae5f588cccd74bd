//! The forms of values.

ghost use Rattle.std.specs.Prelude.{◌≡◌};
ghost use Rattle.description_shapes.specs.Forms.{form_of};

use crate::kind::Kind;

/// What a value of a kind is.
#[derive(Clone, Copy)]
pub enum Form {
    /// Any value.
    Anything,
    /// No value: the word that names the kind of the value is unknown.
    Nothing,
    /// An object with the keys of the kind.
    Object,
    /// An array of values of one kind.
    List(Kind),
    /// The same, with at least and at most so many.
    Counted(usize, usize, Kind),
    /// An array with the parts of the kind.
    Row,
    /// A string that is a name.
    Name,
    /// A string.
    Text,
    /// A string that is one of the words of the kind.
    Word,
    /// A whole number that fits signed 64 bits.
    Int,
    /// A whole number that is at least the first and at most the second.
    Range(u64, u64),
    /// True or false.
    Flag,
}

/// The form of the values of this kind.
pub fn form_of(kind: Kind) -> Form
    ensures { result ≡ form_of kind }
{
    match kind {
        Kind::Anything => Form::Anything,
        Kind::DataTypes => Form::List(Kind::DataType),
        Kind::ModeGroups => Form::List(Kind::ModeGroup),
        Kind::DeclaredModes => Form::Counted(1, 32, Kind::DeclaredMode),
        Kind::Interfaces => Form::List(Kind::Interface),
        Kind::DataElements => Form::List(Kind::DataElement),
        Kind::Operations => Form::List(Kind::Operation),
        Kind::Arguments => Form::List(Kind::Argument),
        Kind::OperationErrors => Form::List(Kind::OperationError),
        Kind::Components => Form::List(Kind::Component),
        Kind::Ports => Form::List(Kind::Port),
        Kind::ComSpecs => Form::List(Kind::ComSpec),
        Kind::Words => Form::List(Kind::Word),
        Kind::DeclaredAreas => Form::List(Kind::DeclaredArea),
        Kind::Variables => Form::List(Kind::Variable),
        Kind::Runnables => Form::List(Kind::Runnable),
        Kind::Accesses => Form::List(Kind::Access),
        Kind::CoherentLists => Form::List(Kind::CoherentList),
        Kind::CoherentList => Form::List(Kind::ItemPair),
        Kind::Statements => Form::List(Kind::Statement),
        Kind::Events => Form::List(Kind::Event),
        Kind::OneMode => Form::Counted(1, 1, Kind::ModeName),
        Kind::TwoModes => Form::Counted(2, 2, Kind::ModeName),
        Kind::SomeModes => Form::List(Kind::ModeName),
        Kind::Compositions => Form::List(Kind::Composition),
        Kind::Prototypes => Form::List(Kind::Prototype),
        Kind::Connectors => Form::List(Kind::Connector),
        Kind::Tasks => Form::Counted(0, 256, Kind::Task),
        Kind::MappedEvents => Form::List(Kind::MappedEvent),
        Kind::Expressions => Form::List(Kind::Expression),
        Kind::LocalNames => Form::List(Kind::LocalName),
        Kind::PortOfPrototype
        | Kind::ItemAccess
        | Kind::VariableAccess
        | Kind::PortAccess
        | Kind::AreaAccess
        | Kind::ItemPair
        | Kind::SetStatement
        | Kind::IfStatement
        | Kind::RepeatStatement
        | Kind::AreaStatement
        | Kind::GivingStatement
        | Kind::TakingStatement
        | Kind::ItemStatement
        | Kind::LateWrite
        | Kind::EarlyRead
        | Kind::VariableWrite
        | Kind::VariableRead
        | Kind::CallStatement
        | Kind::SwitchStatement
        | Kind::ModeStatement
        | Kind::Operator => Form::Row,
        Kind::UnknownAccess | Kind::UnknownStatement | Kind::UnknownExpression => Form::Nothing,
        Kind::DeclaredName
        | Kind::DeclaredMode
        | Kind::DeclaredArea
        | Kind::RootName
        | Kind::InitialMode
        | Kind::TypeName
        | Kind::GroupName
        | Kind::InterfaceName
        | Kind::ComSpecItem
        | Kind::RunnableName
        | Kind::ComponentPort
        | Kind::EventItem
        | Kind::AccessItem
        | Kind::PairItem
        | Kind::AreaName
        | Kind::VariableName
        | Kind::ModeName
        | Kind::PrototypeTypeName
        | Kind::JoinedPrototype
        | Kind::JoinedPort
        | Kind::OuterPort
        | Kind::TaskName
        | Kind::EventName
        | Kind::LocalName => Form::Name,
        Kind::InstancePath => Form::Text,
        Kind::BaseType
        | Kind::Policy
        | Kind::Direction
        | Kind::PortKind
        | Kind::InterfaceKind
        | Kind::EventKind
        | Kind::ConnectorKind
        | Kind::Activation => Form::Word,
        Kind::Limit | Kind::Word | Kind::CoreNumber | Kind::Constant => Form::Int,
        Kind::WordCount => Form::Range(1, 16),
        Kind::ErrorNumber => Form::Range(1, 63),
        Kind::QueueLength => Form::Range(1, 1_024),
        Kind::Period => Form::Range(1, 1_000_000),
        Kind::CoreCount => Form::Range(1, 8),
        Kind::Position => Form::Range(0, 65_535),
        Kind::RepeatCount => Form::Range(0, 1_000),
        Kind::Flag => Form::Flag,
        _ => Form::Object,
    }
}
