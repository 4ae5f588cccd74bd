//! What a rule over the values of a description is.

ghost use Rattle.std.specs.Prelude.{◌≡◌, Bool, true};
ghost use Rattle.serde_json.specs.View.{view};
ghost use Rattle.description_shapes.specs.Calculations.{Passes};
ghost use Rattle.description_shapes.specs.Skips.{Skips};
ghost use Rattle.description_shapes.specs.Trails.{spot_of};
ghost use Rattle.description_shapes.specs.Visits.{Visit, visit_at};

use crate::kind::Kind;
use crate::trail::Trail;
use serde_json::Value;

/// A rule that looks at each value of a description, with its kind and what stands round it.
pub trait Rule {
    // the test that a broken value meets
    ghost breaks: { Self → Visit → Bool };

    /// Whether the value, which stands at this place, breaks the rule.
    fn is_broken(&self, value: &Value, kind: Kind, trail: &Trail) -> bool
        ensures { result ≡ breaks self.now (visit_at (spot_of trail.now) kind (view value.now)) };

    /// Whether the walk may pass a value of this kind, with all that it holds: then none of these breaks the rule. So the rule of
    /// references passes calculations of programs.
    fn passes(&self, kind: Kind) -> bool
        ensures { result ≡ true → Passes (breaks self.now) kind };

    /// Whether the walk need not look where a value of this kind should stand: nothing there breaks the rule. So the rule of
    /// references skips the keys of plain values that refer to nothing.
    fn skips(&self, kind: Kind) -> bool
        ensures { result ≡ true → Skips (breaks self.now) kind };
}
