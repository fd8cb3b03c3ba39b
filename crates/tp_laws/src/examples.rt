ghost use Rattle.std.specs.Prelude.{◌≡◌, ℕ, ◌^◌, ◌-◌, pos, Some, None, [], ◌∷◌, codes};
ghost use Rattle.tp_spec.specs.declared.plan.Item.TheVariants.{TimedAt, Start, End};
ghost use Rattle.tp_spec.specs.States.{initial};
ghost use Rattle.tp_spec.specs.Items.{after};
ghost use Rattle.tp_spec.specs.Courses.{Valid, Possible};
ghost use Rattle.tp_spec.specs.Words.{spell};
ghost use Rattle.tp_spec.specs.Following.{IsBusy};
ghost use Rattle.tp_spec.specs.Texts.{tick_text, command_text, out_text};
ghost use Rattle.tp_spec.specs.declared.event.Event.TheVariants.{Tick, Take};
ghost use Rattle.tp_laws.specs.Examples.{pressed, wide, truth, reached, lamp, switch, arch, gated, tank, act, plan, opens, joins};

/// Pressing the button is possible, and so is the empty plan where the goal holds at the start.
pub fn goal_at_start()
    ensures pressed { Possible lamp wide 0 [] (plan (act 0 0 0 ∷ []) 0) }
    ensures empty { Possible reached wide 0 [] (plan [] 0) }
{}

/// Two durative actions that give each other's invariant in one happening are valid together, and
/// neither is alone.
pub fn invariants_given_together()
    ensures both { Valid arch wide (plan (act 0 0 4 ∷ act 1 0 4 ∷ []) 4) }
    ensures not_left { ¬ Valid arch wide (plan (act 0 0 4 ∷ []) 4) }
    ensures not_right { ¬ Valid arch wide (plan (act 1 0 4 ∷ []) 4) }
{}

/// Plans that fail at one tick: two starts that clash, an invariant that a timed literal deletes,
/// and an end that needs what is deleted at its own tick; one tick later is in time.
pub fn unsafe_plans()
    ensures clash { ¬ Valid switch wide (plan (act 0 0 0 ∷ act 1 0 0 ∷ []) 0) }
    ensures broken { ¬ Valid (gated (truth 2 ∷ []) [] 4) wide (plan (act 0 0 5 ∷ []) 5) }
    ensures too_late { ¬ Valid (gated [] (truth 2 ∷ []) 5) wide (plan (act 0 0 5 ∷ []) 5) }
    ensures in_time { Valid (gated [] (truth 2 ∷ []) 6) wide (plan (act 0 0 5 ∷ []) 5) }
{}

/// An increase past 64 bits has no state after.
pub fn states_after()
    ensures { after (tank (pos (2 ^ 63 - 1))) (initial (tank (pos (2 ^ 63 - 1)))) (End 0 ∷ [])
        ≡ None }
{}

/// The end of one pumping and the start of the next share a group.
pub fn spelled_words()
    ensures { spell (tank (pos 0)) (plan (act 0 0 2 ∷ act 0 2 2 ∷ []) 4) ≡ opens (Start 0)
        ∷ opens (End 0) ∷ joins (Start 0) ∷ opens (End 0) ∷ [] }
{}

/// What is printed: ticks in units of time, a command, and the result of a history.
pub fn printed_texts()
    ensures tick { tick_text 100 705 ≡ codes "7.05" }
    ensures command { command_text (gated [] [] 9) (act 0 3 5) ≡ codes "do 3: (go a b) [5]\n" }
    ensures result { out_text lamp pressed ≡ codes "plan\n0: (press)\nend 0\n" }
    ensures nothing { out_text lamp (Tick 1 0 ∷ []) ≡ [] }
{}

/// A worker that takes and merges in turns is busy; one that makes an empty turn while a node is
/// open is not, nor is one that takes another node where it should merge.
pub fn busy_histories()
    ensures busy { IsBusy wide 1 pressed }
    ensures idle { ¬ IsBusy wide 1 (Tick 1 0 ∷ pressed) }
    ensures unmerged { ¬ IsBusy wide 1 (Tick 1 0 ∷ Take 1 0 ∷ Tick 1 0 ∷ Tick 1 0 ∷ []) }
{}
