//! What a plan numbers at ports, and variables.

/// A data element, a variable, a served operation or a mode element, of an instance or of the environment.
#[derive(Clone, Copy, Debug, PartialEq, Eq)]
pub struct Site {
    /// The number of the instance; None is the environment.
    pub owner: Option<u32>,
    /// The position of the port, in the component or, for the environment, among the outer ports of the root; None for a
    /// variable.
    pub port: Option<u32>,
    /// The position of the item in the port's interface, 0 for a mode element; of the variable in the component.
    pub item: u32,
    pub kind: SiteKind,
}

/// What it is.
#[derive(Clone, Copy, Debug, PartialEq, Eq)]
pub enum SiteKind {
    /// A data element (VariableDataPrototype), which its owner provides if this is true, and else requires.
    Element(bool),
    /// An inter-runnable variable.
    Variable,
    /// An operation of a P-port of an instance.
    Server,
    /// A mode element that its owner provides.
    Machine,
    /// A mode element that its owner requires.
    ModePort,
}
