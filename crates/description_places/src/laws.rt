//! Laws about the definitions.

ghost use Rattle.std.specs.Prelude.{◌≡◌, ℕ, ◌^◌, ◌<◌, List, true, false, None};
ghost use Rattle.std.specs.List.{All, list_all};
ghost use Rattle.serde_json.specs.Data.{Data, Items};
ghost use Rattle.description_places.specs.Catalogs.{catalog_of};
ghost use Rattle.description_places.specs.FirstPlaces.{parts_text, task_text};
ghost use Rattle.declared_names.specs.Values.{texts_of};
ghost use Rattle.description_places.specs.Distinct.{breaks_distinct};
ghost use Rattle.description_shapes.specs.Names.{is_name};
ghost use Rattle.description_places.specs.References.{breaks_references};
ghost use Rattle.description_shapes.specs.Rules.{visits_of, breaks_shape, breaks_names};
ghost use Rattle.description_places.specs.Rules.{refusal};

/// The text of an access tells its parts, if they are names, and that of a position the task and the number.
pub fn texts_tell_accesses_and_positions()
    ensures accesses { (ds es : Items) → list_all is_name (texts_of ds) ≡ true → list_all is_name (texts_of es) ≡ true →
        parts_text ds ≡ parts_text es → texts_of ds ≡ texts_of es }
    ensures positions { (task other : List ℕ) (position another : ℕ) → is_name task ≡ true → is_name other ≡ true →
        position < 2 ^ 64 → another < 2 ^ 64 → task_text task position ≡ task_text other another →
        (task ≡ other) × (position ≡ another) }
{}

/// What a description with no refusal holds: each value has its shape, each name its form, no name that a list declares
/// stands at an earlier place of it, and what each name refers to is declared.
pub fn unbroken_descriptions()
    ensures shapes { (d : Data) → refusal d ≡ None → All (λ v. breaks_shape v ≡ false) (visits_of d) }
    ensures names { (d : Data) → refusal d ≡ None → All (λ v. breaks_names v ≡ false) (visits_of d) }
    ensures distinct { (d : Data) → refusal d ≡ None → All (λ v. breaks_distinct (catalog_of d) v ≡ false) (visits_of d) }
    ensures references { (d : Data) → refusal d ≡ None → All (λ v. breaks_references (catalog_of d) v ≡ false) (visits_of d) }
{}
