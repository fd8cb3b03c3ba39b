ghost use Rattle.tp_laws.specs.Plans.{OfFormed, WordsOfPlansAreSound, WordsOfPlansAreWhole, FrontsAreLive, DeadIsHopeless, PlansAreOfWords, WordsOfPlansAreComplete, GroupsAreHappenings, CompleteWordsAreSpelled, CompleteWordsArePossible, WordLaws};

/// The word of a valid plan is sound and whole.
pub fn words_of_plans()
    ensures sound { OfFormed WordsOfPlansAreSound }
    ensures whole { OfFormed WordsOfPlansAreWhole }
{}

/// Each front of a possible plan's word is live, at every clock and under all commitments.
pub fn fronts_of_plans()
    ensures { OfFormed FrontsAreLive }
{
    words_of_plans();
}

/// A word that is not live begins no possible plan's word.
pub fn hopeless_words()
    ensures { OfFormed DeadIsHopeless }
{
    fronts_of_plans();
}

/// A possible plan is the one of its word and some schedule of it, and its word is complete.
pub fn plans_are_of_words()
    ensures plans { OfFormed PlansAreOfWords }
    ensures complete { OfFormed WordsOfPlansAreComplete }
{
    words_of_plans();
}

/// The groups of a complete word are the happenings of its plans, which so have this word.
pub fn spelled_plans()
    ensures groups { OfFormed GroupsAreHappenings }
    ensures spelled { OfFormed CompleteWordsAreSpelled }
{}

/// The plan of a complete word and one of its schedules is possible.
pub fn possible_plans()
    ensures { OfFormed CompleteWordsArePossible }
{
    spelled_plans();
}

/// What the search needs of words and plans: fronts of possible plans' words are live, the words of
/// valid plans are whole, and the plans of complete words have these words and are possible.
pub fn laws_of_words()
    ensures { OfFormed WordLaws }
{}
