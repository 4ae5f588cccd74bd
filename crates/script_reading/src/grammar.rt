//! What the lines of a script say.

ghost use Rattle.std.specs.Prelude.{◌≡◌};
ghost use Rattle.bus_semantics.specs.Plan.{plan_of};
ghost use Rattle.script_reading.specs.Meaning.{saying};
ghost use Rattle.script_reading.specs.Pieces.{saying_of};
ghost use Rattle.script_reading.specs.Reserved.{around, is_reserved, saying_around};

use crate::environment::Environment;
use crate::line::{NO_SUCH, Said, read_line_of};
use bus_semantics::{Line, Wish};

/// What the lines of a script say.
pub trait Grammar {
    ghost use Rattle.std.specs.Prelude.{◌≡◌};
    ghost use Rattle.bus_semantics.specs.Spelling.{Letters};
    ghost use Rattle.script_reading.specs.Meaning.{Saying};
    ghost use Rattle.script_reading.specs.Pieces.{saying_of};

    ghost say: { Self → Letters → Saying };

    /// What the text of a line says.
    fn read_line(&self, text: &[u8]) -> Said
        ensures { saying_of result ≡ say self.now text.now };
}

impl<'p> Grammar for Environment<'p> {
    ghost use Rattle.bus_semantics.specs.Plan.{plan_of};
    ghost use Rattle.script_reading.specs.Meaning.{saying};

    ghost say = { λ environment. saying (plan_of environment.plan.now) };

    fn read_line(&self, text: &[u8]) -> Said {
        read_line_of(self, text)
    }
}

/// What the environment of a plan has, if scripts receive nothing from some of its elements.
#[derive(Clone, Copy)]
pub struct Reserving<'e, 'p> {
    pub environment: &'e Environment<'p>,
    /// For each element of the plan whether it is reserved. Of those past the end none is.
    pub reserved: &'e [bool],
}

/// Whether the line receives from a reserved element.
fn is_reserved(reserved: &[bool], said: &Said) -> bool
    ensures { result ≡ is_reserved reserved.now (saying_of said.now) }
{
    match said {
        Said::Line(Line::Call(Wish::Receive { elem })) => {
            reserved.get(*elem as usize).copied().unwrap_or(false)
        }
        _ => false,
    }
}

impl<'e, 'p> Grammar for Reserving<'e, 'p> {
    ghost use Rattle.bus_semantics.specs.Plan.{plan_of};
    ghost use Rattle.script_reading.specs.Reserved.{saying_around};

    ghost say = { λ grammar. saying_around (plan_of grammar.environment.now.plan.now) grammar.reserved.now };

    fn read_line(&self, text: &[u8]) -> Said {
        let mut said = read_line_of(self.environment, text);
        if is_reserved(self.reserved, &said) {
            said = Said::Bad(NO_SUCH);
        }
        said
    }
}
