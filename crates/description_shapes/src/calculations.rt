//! Calculations of programs.

ghost use Rattle.std.specs.Prelude.{◌≡◌, true};
ghost use Rattle.description_shapes.specs.Calculations.{IsCalculation};

use crate::kind::Kind;

/// Whether values of this kind belong to a calculation of a program: an assignment, an expression, or what these hold. No such
/// value declares anything, and none refers to what is declared.
pub fn is_calculation(kind: Kind) -> bool
    ensures { result ≡ true → IsCalculation kind }
{
    match kind {
        Kind::SetStatement => true,
        Kind::Expression => true,
        Kind::Constant => true,
        Kind::LocalName => true,
        Kind::Operator => true,
        Kind::UnknownExpression => true,
        Kind::Anything => true,
        _ => false,
    }
}
