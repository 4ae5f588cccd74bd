//! The law of disabled modes.

ghost use Rattle.std.specs.Prelude.{◌≡◌, ℕ, true, false, Some};
ghost use Rattle.bus_semantics.specs.Common.{Plan, History, noted, waits_of, stage_of, closes_of, is_close, disabler_of, admitted_runs, is_disabled, IsLegal};

/// No admitted activation runs whose event its machine disables: of a machine that waits, from each Exit up to the next
/// Close; of every machine, before its first Close (SWS_RTE: ModeDisablingDependency). An event is disabled by the mode of a
/// stable machine, and while a switch is under way by the last mode as well as by the next one. This holds of every plan,
/// sound or not.
pub fn none_disabled_runs()
    ensures waiting { (p : Plan) (h : History) (machine event : ℕ) → IsLegal p h → waits_of p machine ≡ true →
        is_close (Some (stage_of machine (noted h))) ≡ false → disabler_of p event ≡ Some machine →
        is_disabled p event (noted h) ≡ true → admitted_runs event (noted h) ≡ false }
    ensures first { (p : Plan) (h : History) (machine event : ℕ) → IsLegal p h → closes_of machine (noted h) ≡ 0 →
        disabler_of p event ≡ Some machine → is_disabled p event (noted h) ≡ true →
        admitted_runs event (noted h) ≡ false }
{}
