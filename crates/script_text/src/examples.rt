ghost use Rattle.script_text.specs.Examples.{Scripts, TwoTakes, IdleMerges, NoFeeds, Actors, ReadingTexts, Forms, FirstLines, Playables};
ghost use Rattle.script_text.specs.Examples.{TakeLines, MergeLines, LookLines, TwoOut, LooksBetween, Ends};

/// Texts, and the lines or the first fault of each.
pub fn scripts()
    ensures scripts { Scripts }
    ensures takes { TwoTakes }
    ensures merges { IdleMerges }
    ensures feeds { NoFeeds }
    ensures actors { Actors }
    ensures readings { ReadingTexts }
    ensures forms { Forms }
    ensures first { FirstLines }
    ensures playable { Playables }
{}

/// Histories that follow a script, and such that do not.
pub fn following()
    ensures takes { TakeLines }
    ensures merges { MergeLines }
    ensures looks { LookLines }
    ensures two { TwoOut }
    ensures between { LooksBetween }
    ensures ends { Ends }
{}
