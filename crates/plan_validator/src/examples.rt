ghost use Rattle.std.specs.Prelude.{◌^◌, ◌-◌, pos, [], ◌∷◌};
ghost use Rattle.tp_spec.specs.declared.plan.Item.TheVariants.{TimedAt, End, Start};
ghost use Rattle.tp_laws.specs.Examples.{wide, truth, lamp, switch, arch, gated, tank, act, plan};
ghost use Rattle.plan_validator.specs.declared.verdict.Verdict.TheVariants.{Valid, TooLong, TwiceAt, LengthOut, Overlap, EndOff, Clash, Overflow, Broken, GoalUnmet};
ghost use Rattle.plan_validator.specs.Verdicts.{IsVerdict};

use tp_laws::{invariants_given_together, unsafe_plans};

/// Acts that are refused before any tick is judged, and a plan whose end is no happening.
pub fn refused_acts()
    ensures too_long { IsVerdict lamp (record wide { actions = 1 })
        (plan (act 0 0 0 ∷ act 0 1 0 ∷ []) 1) (TooLong 2) }
    ensures twice { IsVerdict lamp wide (plan (act 0 3 0 ∷ act 0 3 0 ∷ []) 3) (TwiceAt 3 0) }
    ensures length { IsVerdict (gated [] [] 9) wide (plan (act 0 0 4 ∷ []) 4) (LengthOut 0 0) }
    ensures overlap { IsVerdict (gated [] [] 9) wide (plan (act 0 0 5 ∷ act 0 4 5 ∷ []) 9)
        (Overlap 4 0) }
    ensures end_off { IsVerdict (gated [] [] 9) wide (plan (act 0 0 5 ∷ []) 6) (EndOff 6) }
{}

/// A timed delete at the tick of an end that needs the fact, an invariant that is deleted while it
/// is asked, a level that leaves 64 bits, two starts that collide, and a goal that is never
/// reached.
pub fn refused_ticks()
    ensures clash { IsVerdict (gated [] (truth 2 ∷ []) 5) wide (plan (act 0 0 5 ∷ []) 5)
        (Clash 5 (TimedAt 0) (End 0)) }
    ensures broken { IsVerdict (gated (truth 2 ∷ []) [] 4) wide (plan (act 0 0 5 ∷ []) 5)
        (Broken 4 0) }
    ensures overflow { IsVerdict (tank (pos (2 ^ 63 - 1))) wide (plan (act 0 0 2 ∷ []) 2)
        (Overflow 2 0) }
    ensures starts { IsVerdict switch wide (plan (act 0 0 0 ∷ act 1 0 0 ∷ []) 0)
        (Clash 0 (Start 0) (Start 1)) }
    ensures at_once { IsVerdict (gated (truth 1 ∷ []) [] 9) wide (plan (act 0 0 5 ∷ []) 5)
        (Broken 0 0) }
    ensures goal { IsVerdict lamp wide (plan [] 0) (GoalUnmet 0) }
{}

/// Valid plans: an end that needs a fact one tick before it is deleted, and two actions that give
/// each other's invariant in one happening.
pub fn accepted_plans()
    ensures in_time { IsVerdict (gated [] (truth 2 ∷ []) 6) wide (plan (act 0 0 5 ∷ []) 5) Valid }
    ensures together { IsVerdict arch wide (plan (act 0 0 4 ∷ act 1 0 4 ∷ []) 4) Valid }
{
    unsafe_plans();
    invariants_given_together();
}
