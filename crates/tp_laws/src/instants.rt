ghost use Rattle.std.specs.Prelude.{◌≡◌, Some, None, [], ◌∷◌};
ghost use Rattle.tp_spec.specs.declared.plan.Item.TheVariants.{TimedAt, Start};
ghost use Rattle.tp_laws.specs.Examples.{opens, joins};
ghost use Rattle.tp_laws.specs.Instants.{DeadlinesByMark, EmptyWordIsLive, InstantsByMark, OutlookOfEmptyWord, OutlooksByMark};
ghost use Rattle.tp_laws.specs.InstantExamples.{with_mark};
ghost use Rattle.tp_laws.specs.Plans.{OfFormed};

/// The empty word is live as long as the clock runs.
pub fn empty_word()
    ensures { EmptyWordIsLive }
{}

/// Whether all acts of a word are of instant actions, and its outlook, go mark by mark.
pub fn outlooks_by_mark()
    ensures instants { InstantsByMark }
    ensures empty { OutlookOfEmptyWord }
    ensures longer { OutlooksByMark }
{}

/// Where all acts of a word and one more mark are of instant actions, the longer word's deadline
/// comes from that of the word and from its outlook, whatever else the problem has.
pub fn deadlines_of_instants()
    ensures { OfFormed DeadlinesByMark }
{}

/// Starts of an action where timed items stand at ticks 3 and 7, with at most two acts: the first
/// start before the next timed item, or with the last one; a second start behind a timed item
/// leaves the first where it was, and moves it one tick down before any; there is no third.
pub fn starts_among_timed_items()
    ensures before { with_mark 9 [] 10 (opens (Start 0)) ≡ Some 2 }
    ensures behind { with_mark 9 (opens (TimedAt 0) ∷ []) 10 (opens (Start 0)) ≡ Some 6 }
    ensures beside { with_mark 9 (opens (TimedAt 0) ∷ []) 10 (joins (Start 0)) ≡ Some 3 }
    ensures moved { with_mark 9 (opens (Start 0) ∷ []) 2 (opens (Start 0)) ≡ Some 1 }
    ensures held { with_mark 9 (opens (Start 0) ∷ opens (TimedAt 0) ∷ []) 2 (opens (Start 0))
        ≡ Some 2 }
    ensures full { with_mark 9 (opens (Start 0) ∷ opens (Start 0) ∷ []) 1 (opens (Start 0))
        ≡ None }
{}

/// Where the horizon is: behind the last timed item a start needs a tick more, and a timed item
/// behind the horizon never comes.
pub fn starts_at_the_horizon()
    ensures last { with_mark 8 (opens (TimedAt 0) ∷ opens (TimedAt 1) ∷ []) 9 (opens (Start 0))
        ≡ Some 8 }
    ensures past { with_mark 7 (opens (TimedAt 0) ∷ opens (TimedAt 1) ∷ []) 8 (opens (Start 0))
        ≡ None }
    ensures item { with_mark 7 (opens (TimedAt 0) ∷ []) 8 (opens (TimedAt 1)) ≡ Some 8 }
    ensures item_past { with_mark 6 (opens (TimedAt 0) ∷ []) 7 (opens (TimedAt 1)) ≡ None }
{}
