ghost use Rattle.std.specs.Prelude.{◌≡◌};
ghost use Rattle.ground_text.specs.Texts.{problem_text};
ghost use Rattle.ground_text.specs.Examples.{small, small_text};

/// The text of a small problem, computed from the definition.
#[tactic(none)]
pub fn example()
    ensures { problem_text small ≡ small_text }
{}
