//! Keys at which a walk need not look.

ghost use Rattle.std.specs.Prelude.{◌≡◌};
ghost use Rattle.description_shapes.specs.Forms.{form_of};
ghost use Rattle.description_shapes.specs.Skips.{is_plain, is_declared_kind, declares_nothing, is_referring_kind, refers_to_nothing};

use crate::form::{Form, form_of};
use crate::kind::Kind;

fn is_plain(form: Form) -> bool
    ensures { result ≡ is_plain form }
{
    match form {
        Form::Name | Form::Text | Form::Word | Form::Int | Form::Range(_, _) | Form::Flag => true,
        _ => false,
    }
}

fn is_declared_kind(kind: Kind) -> bool
    ensures { result ≡ is_declared_kind kind }
{
    match kind {
        Kind::DeclaredName
        | Kind::DeclaredMode
        | Kind::DeclaredArea
        | Kind::ComSpecItem
        | Kind::Position => true,
        _ => false,
    }
}

fn is_referring_kind(kind: Kind) -> bool
    ensures { result ≡ is_referring_kind kind }
{
    match kind {
        Kind::TypeName
        | Kind::GroupName
        | Kind::InterfaceName
        | Kind::PrototypeTypeName
        | Kind::RootName
        | Kind::TaskName
        | Kind::InitialMode
        | Kind::RunnableName
        | Kind::ComponentPort
        | Kind::OuterPort
        | Kind::AreaName
        | Kind::VariableName
        | Kind::ComSpecItem
        | Kind::EventItem
        | Kind::AccessItem
        | Kind::PairItem
        | Kind::JoinedPrototype
        | Kind::JoinedPort
        | Kind::CoreNumber => true,
        _ => false,
    }
}

/// Whether what stands where a value of this kind should declares nothing, whatever it is.
pub fn declares_nothing(kind: Kind) -> bool
    ensures { result ≡ declares_nothing kind }
{
    is_plain(form_of(kind)) && !is_declared_kind(kind)
}

/// Whether what stands where a value of this kind should refers to nothing, whatever it is.
pub fn refers_to_nothing(kind: Kind) -> bool
    ensures { result ≡ refers_to_nothing kind }
{
    is_plain(form_of(kind)) && !is_referring_kind(kind)
}
