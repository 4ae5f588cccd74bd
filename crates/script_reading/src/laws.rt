//! Laws of scripts.

ghost use Rattle.std.specs.Prelude.{◌≡◌, ◌↔◌, ℕ, List, All, Bool, Some, map, true, false};
ghost use Rattle.bus_semantics.specs.Common.{list_all, Plan, IsSound, Letters};
ghost use Rattle.bus_semantics.specs.declared.script.Line.{Line};
ghost use Rattle.bus_semantics.specs.declared.script.Mapping.{Mapping};
ghost use Rattle.script_reading.specs.Carried.{IsCarriable};
ghost use Rattle.script_reading.specs.Meaning.{Asked, asked_of, asks, no_such, saying};
ghost use Rattle.script_reading.specs.Reading.{IsScript, IsScriptBy, cause_of};
ghost use Rattle.script_reading.specs.Reserved.{is_reserved, keeps_off, saying_around};
ghost use Rattle.script_reading.specs.Scripts.{SpellsScript};
ghost use Rattle.script_reading.specs.Sentences.{AsksFor, IsCauseOf, IsSpelling};

/// Each line of a script over a plan is one that the environment may carry out.
pub fn scripts_are_carriable()
    ensures { (p : Plan) (bytes : Letters) (lines : List Line) → IsScript p bytes lines → All (IsCarriable p) lines }
{}

/// A line that asks for something is the spelling of it, and the environment may ask for it. In a sound plan a line asks
/// for something exactly if it is the spelling of it and the environment may ask for it, and for nothing else. In
/// others the first of those with one name is meant.
pub fn lines_spell_what_they_ask()
    ensures asked { (p : Plan) (t : Letters) (a : Asked) → saying p t ≡ asks a → AsksFor p t a }
    ensures exactly { (p : Plan) (m : Mapping) (t : Letters) (a : Asked) → IsSound p m → (saying p t ≡ asks a) ↔ IsSpelling p t a }
    ensures once { (p : Plan) (m : Mapping) (t : Letters) (a b : Asked) → IsSound p m → IsSpelling p t a → IsSpelling p t b → a ≡ b }
{}

/// The least cause of a line is this one exactly if its sentence holds: it has none of the forms; it has one, but
/// names nothing that there is; it names such a thing, but gives it no value that it takes; or a limit is passed.
pub fn causes_are_sentences()
    ensures { (p : Plan) (before : List Letters) (t : Letters) (cause : ℕ) → cause_of (saying p) before t ≡ Some cause ↔ IsCauseOf p before t cause }
{}

/// In a sound plan bytes are a script of these lines exactly if they spell them: without blank lines and comments the
/// lines of the text are the spellings of what these ask for, in order, the environment may ask for each, and no limit
/// is passed.
pub fn scripts_spell_their_lines()
    ensures { (p : Plan) (m : Mapping) (bytes : Letters) (lines : List Line) → IsSound p m → IsScript p bytes lines ↔ SpellsScript p bytes lines }
{}

/// A line that receives from a reserved element has cause 2, and any other the cause that it has over the plan. So the scripts
/// that keep off what is reserved are those over the plan that ask for nothing of it.
pub fn scripts_keep_off_what_is_reserved()
    ensures reserved { (p : Plan) (reserved : List Bool) (before : List Letters) (t : Letters) → is_reserved reserved (saying p t) ≡ true
        → cause_of (saying_around p reserved) before t ≡ Some no_such }
    ensures others { (p : Plan) (reserved : List Bool) (before : List Letters) (t : Letters) → is_reserved reserved (saying p t) ≡ false
        → cause_of (saying_around p reserved) before t ≡ cause_of (saying p) before t }
    ensures scripts { (p : Plan) (reserved : List Bool) (bytes : Letters) (lines : List Line) → IsScriptBy (saying_around p reserved) bytes lines
        ↔ (IsScript p bytes lines × (list_all (keeps_off reserved) (map asked_of lines) ≡ true)) }
{}
