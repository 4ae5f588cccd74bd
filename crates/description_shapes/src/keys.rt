//! The keys of objects.

ghost use Rattle.std.specs.Prelude.{◌≡◌, map};
ghost use Rattle.description_shapes.specs.Keys.{key_of, keys_of};

use crate::kind::Kind;

/// A key of an object.
#[derive(Clone, Copy)]
pub struct Field {
    /// The key.
    pub name: &'static str,
    /// Whether the key may not be missing.
    pub is_needed: bool,
    /// What its value is.
    pub kind: Kind,
}

macro_rules! needed {
    ($name:literal, $kind:ident) => {
        Field {
            name: $name,
            is_needed: true,
            kind: Kind::$kind,
        }
    };
}

macro_rules! optional {
    ($name:literal, $kind:ident) => {
        Field {
            name: $name,
            is_needed: false,
            kind: Kind::$kind,
        }
    };
}

/// The keys of an object of this kind, in order, and none of another kind.
pub fn keys_of(kind: Kind) -> &'static [Field]
    ensures { map key_of result.now ≡ keys_of kind }
{
    match kind {
        Kind::Description => &[
            optional!("dataTypes", DataTypes),
            optional!("modeGroups", ModeGroups),
            optional!("interfaces", Interfaces),
            optional!("components", Components),
            optional!("compositions", Compositions),
            needed!("root", RootName),
            needed!("mapping", Mapping),
        ],
        Kind::DataType => &[
            needed!("shortName", DeclaredName),
            needed!("baseType", BaseType),
            needed!("lower", Limit),
            needed!("upper", Limit),
            needed!("words", WordCount),
        ],
        Kind::ModeGroup => &[
            needed!("shortName", DeclaredName),
            needed!("modes", DeclaredModes),
            needed!("initialMode", InitialMode),
        ],
        Kind::SenderReceiverInterface => &[
            needed!("kind", InterfaceKind),
            needed!("shortName", DeclaredName),
            optional!("dataElements", DataElements),
        ],
        Kind::ClientServerInterface => &[
            needed!("kind", InterfaceKind),
            needed!("shortName", DeclaredName),
            optional!("operations", Operations),
        ],
        Kind::ModeSwitchInterface => &[
            needed!("kind", InterfaceKind),
            needed!("shortName", DeclaredName),
            needed!("modeGroup", ModeElement),
        ],
        Kind::UnknownInterface => &[
            needed!("kind", InterfaceKind),
            needed!("shortName", DeclaredName),
            optional!("dataElements", Anything),
            optional!("operations", Anything),
            optional!("modeGroup", Anything),
        ],
        Kind::DataElement => &[
            needed!("shortName", DeclaredName),
            needed!("type", TypeName),
            needed!("swImplPolicy", Policy),
        ],
        Kind::Operation => &[
            needed!("shortName", DeclaredName),
            optional!("arguments", Arguments),
            optional!("errors", OperationErrors),
        ],
        Kind::Argument => &[
            needed!("shortName", DeclaredName),
            needed!("type", TypeName),
            needed!("direction", Direction),
        ],
        Kind::OperationError => &[
            needed!("shortName", DeclaredName),
            needed!("code", ErrorNumber),
        ],
        Kind::ModeElement => &[
            needed!("shortName", DeclaredName),
            needed!("type", GroupName),
        ],
        Kind::Component => &[
            needed!("shortName", DeclaredName),
            optional!("ports", Ports),
            needed!("behavior", Behavior),
        ],
        Kind::Port => &[
            needed!("kind", PortKind),
            needed!("shortName", DeclaredName),
            needed!("interface", InterfaceName),
            optional!("comSpecs", ComSpecs),
        ],
        Kind::ComSpec => &[
            needed!("element", ComSpecItem),
            optional!("initValue", Words),
            optional!("handleNeverReceived", Flag),
            optional!("queueLength", QueueLength),
            optional!("supportsAsynchronousModeSwitch", Flag),
        ],
        Kind::Behavior => &[
            optional!("exclusiveAreas", DeclaredAreas),
            optional!("variables", Variables),
            optional!("runnables", Runnables),
            optional!("events", Events),
        ],
        Kind::Variable => &[
            needed!("shortName", DeclaredName),
            needed!("type", TypeName),
            optional!("initValue", Words),
        ],
        Kind::Runnable => &[
            needed!("shortName", DeclaredName),
            optional!("canBeInvokedConcurrently", Flag),
            optional!("accesses", Accesses),
            optional!("coherent", CoherentLists),
            optional!("program", Statements),
        ],
        Kind::TimingEvent => &[
            needed!("kind", EventKind),
            needed!("shortName", DeclaredName),
            needed!("runnable", RunnableName),
            needed!("period", Period),
            optional!("disabledInModes", DisabledModes),
        ],
        Kind::InitEvent => &[
            needed!("kind", EventKind),
            needed!("shortName", DeclaredName),
            needed!("runnable", RunnableName),
            optional!("disabledInModes", DisabledModes),
        ],
        Kind::DataReceivedEvent => &[
            needed!("kind", EventKind),
            needed!("shortName", DeclaredName),
            needed!("runnable", RunnableName),
            needed!("port", ComponentPort),
            needed!("element", EventItem),
            optional!("disabledInModes", DisabledModes),
        ],
        Kind::OperationInvokedEvent => &[
            needed!("kind", EventKind),
            needed!("shortName", DeclaredName),
            needed!("runnable", RunnableName),
            needed!("port", ComponentPort),
            needed!("operation", EventItem),
            optional!("disabledInModes", DisabledModes),
        ],
        Kind::CallReturnsEvent => &[
            needed!("kind", EventKind),
            needed!("shortName", DeclaredName),
            needed!("runnable", RunnableName),
            needed!("port", ComponentPort),
            needed!("operation", EventItem),
            optional!("disabledInModes", DisabledModes),
        ],
        Kind::ModeSwitchEvent => &[
            needed!("kind", EventKind),
            needed!("shortName", DeclaredName),
            needed!("runnable", RunnableName),
            needed!("port", ComponentPort),
            needed!("activation", Activation),
            needed!("modes", OneMode),
            optional!("disabledInModes", DisabledModes),
        ],
        Kind::ModeTransitionEvent => &[
            needed!("kind", EventKind),
            needed!("shortName", DeclaredName),
            needed!("runnable", RunnableName),
            needed!("port", ComponentPort),
            needed!("activation", Activation),
            needed!("modes", TwoModes),
            optional!("disabledInModes", DisabledModes),
        ],
        Kind::ModeSwitchAckEvent => &[
            needed!("kind", EventKind),
            needed!("shortName", DeclaredName),
            needed!("runnable", RunnableName),
            needed!("port", ComponentPort),
            optional!("disabledInModes", DisabledModes),
        ],
        Kind::UnknownEvent => &[
            needed!("kind", EventKind),
            needed!("shortName", DeclaredName),
            needed!("runnable", RunnableName),
            optional!("period", Anything),
            optional!("port", Anything),
            optional!("element", Anything),
            optional!("operation", Anything),
            optional!("activation", Anything),
            optional!("modes", Anything),
            optional!("disabledInModes", Anything),
        ],
        Kind::DisabledModes => &[
            needed!("port", ComponentPort),
            optional!("modes", SomeModes),
        ],
        Kind::Composition => &[
            needed!("shortName", DeclaredName),
            optional!("ports", Ports),
            optional!("prototypes", Prototypes),
            optional!("connectors", Connectors),
        ],
        Kind::Prototype => &[
            needed!("shortName", DeclaredName),
            needed!("type", PrototypeTypeName),
        ],
        Kind::AssemblyConnector => &[
            needed!("kind", ConnectorKind),
            needed!("provider", PortOfPrototype),
            needed!("requester", PortOfPrototype),
        ],
        Kind::DelegationConnector => &[
            needed!("kind", ConnectorKind),
            needed!("inner", PortOfPrototype),
            needed!("outer", OuterPort),
        ],
        Kind::UnknownConnector => &[
            needed!("kind", ConnectorKind),
            optional!("provider", Anything),
            optional!("requester", Anything),
            optional!("inner", Anything),
            optional!("outer", Anything),
        ],
        Kind::Mapping => &[
            needed!("cores", CoreCount),
            optional!("tasks", Tasks),
            optional!("events", MappedEvents),
        ],
        Kind::Task => &[
            needed!("shortName", DeclaredName),
            needed!("core", CoreNumber),
        ],
        Kind::MappedEvent => &[
            needed!("instance", InstancePath),
            needed!("event", EventName),
            needed!("task", TaskName),
            needed!("position", Position),
        ],
        _ => &[],
    }
}
