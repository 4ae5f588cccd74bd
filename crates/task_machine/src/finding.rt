//! The instruction at a place of a body.

ghost use Rattle.std.specs.Prelude.{◌≡◌, ◌≤◌, ◌<◌, ◌+◌, ◌^◌, ◌++◌, length, take, drop, slice_get, IfSome};
ghost use Rattle.bus_semantics.specs.Common.{option_copied, option_map, arc_value};
ghost use Rattle.task_machine.specs.declared.instr.Instr.{Instr};
ghost use Rattle.task_machine.specs.Instructions.{instruction_of};
ghost use Rattle.task_machine.specs.Spots.{code_in};

use crate::instr::{Body, Instr};

/// The instruction at a place in so many instructions, those of a program, and the others of those around it. It stays a function of
/// its own, since most places are in the program.
#[inline(never)]
#[tactic(auto, using(crate::proofs::Parts::in_front, crate::proofs::Parts::in_program, crate::proofs::Parts::behind_it))]
fn instr_anywhere<'a>(
    around: &'a [Instr],
    before: usize,
    program: &'a [Instr],
    place: usize,
) -> Option<&'a Instr>
    requires around { before ≤ length around.now }
    requires short { length program.now < 2 ^ 32 }
    ensures instr { option_copied result ≡ slice_get (take before around.now ++ (program.now ++ drop before around.now)) place }
    ensures near { IfSome result (λ x. place < 2 ^ 63 + 2 ^ 32) }
{
    // A place before the program wraps to one far behind it, so that one comparison finds the others.
    let behind = place.wrapping_sub(before);
    if behind < program.len() {
        return program.get(behind);
    }
    if place < before {
        return around.get(place);
    }
    around.get(place - program.len())
}

/// The same; the program is looked at first.
#[inline(always)]
#[tactic(auto, using(crate::proofs::Parts::in_front, crate::proofs::Parts::in_program, crate::proofs::Parts::behind_it))]
pub fn instr_at<'a>(
    around: &'a [Instr],
    before: usize,
    program: &'a [Instr],
    place: usize,
) -> Option<&'a Instr>
    requires around { before ≤ length around.now }
    requires short { length program.now < 2 ^ 32 }
    ensures instr { option_copied result ≡ slice_get (take before around.now ++ (program.now ++ drop before around.now)) place }
    ensures near { IfSome result (λ x. place < 2 ^ 63 + 2 ^ 32) }
{
    // One reference comes of both, and then the answer: two answers would be told apart once more by each caller.
    let instr = match program.get(place.wrapping_sub(before)) {
        Some(instr) => instr,
        None => instr_anywhere(around, before, program, place)?,
    };
    Some(instr)
}

impl Body {
    /// The instruction at a place.
    #[inline(always)]
    fn found(&self, place: usize) -> Option<&Instr>
        ensures instr { option_copied result ≡ slice_get (take self.now.before self.now.around ++ ((arc_value self.now.code).instrs ++ drop self.now.before self.now.around)) place }
        ensures near { IfSome result (λ x. place < 2 ^ 63 + 2 ^ 32) }
    {
        instr_at(
            self.around.items(),
            self.before,
            self.code.instrs.items(),
            place,
        )
    }

    /// The instruction at a place.
    #[inline(always)]
    pub fn at(&self, place: usize) -> Option<&Instr>
        ensures instr { option_map (λ (x : Instr). instruction_of x self.now.targets) (option_copied result) ≡ slice_get (code_in self.now) place }
        ensures near { IfSome result (λ x. place < 2 ^ 63 + 2 ^ 32) }
    {
        self.found(place)
    }
}
