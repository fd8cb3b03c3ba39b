ghost use Rattle.tp_laws.specs.Clocks.{OfWord, LaterIsEarlier, MoreIsFewer, LiveEarlier, StaysGreatest, GreatestTells, GreatestGivesDeadline, LiveHasGreatest, LiveHasLeast, SoundHasActsInGroups};

/// A schedule at a later clock, under commitments that were added from the earlier clock on, is one
/// at the earlier clock without them, and so a word that is live there was live before.
pub fn earlier_clocks()
    ensures schedules { OfWord LaterIsEarlier }
    ensures fewer { OfWord MoreIsFewer }
    ensures live { OfWord LiveEarlier }
{}

/// The greatest schedule does not depend on the clock, and in the one at clock 0 the tick of the
/// first start that is no commitment is the last clock at which the word is live; without such a
/// start it is live at each.
pub fn one_tick_tells()
    ensures stays { OfWord StaysGreatest }
    ensures tells { OfWord GreatestTells }
{}

/// In the greatest schedule at clock 0 the tick of the first start that is no commitment is the
/// word's deadline, the last clock at which it is live, in ticks. Without such a start it is live
/// as long as the machine's clock runs.
pub fn deadlines_of_words()
    ensures { OfWord GreatestGivesDeadline }
{}

/// A live word has a schedule that is the greatest in every component, and one that is the least,
/// at every clock and under all commitments. Dechter, Meiri and Pearl 1991 (the latest and the
/// earliest times).
pub fn extreme_schedules()
    ensures greatest { OfWord LiveHasGreatest }
    ensures least { OfWord LiveHasLeast }
{}

/// A sound word's acts are of its problem's actions and lie in its groups, as its timed items do.
pub fn acts_of_sound_words()
    ensures { SoundHasActsInGroups }
{}
