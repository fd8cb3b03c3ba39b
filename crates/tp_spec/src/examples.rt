ghost use Rattle.tp_spec.specs.Pinned.{Comparisons, Operations, Values, Literals, UndefinedCompares, StartStates, ComparedSides};
ghost use Rattle.tp_spec.specs.Pinned.{ItemOrder, Parts, Undefined, UndefinedRight, Own, Changes, Facts, Fits, StatesAfter};
ghost use Rattle.tp_spec.specs.Pinned.{LiteralsDisturbed, ComparisonsDisturbed, FactsCollide, ChangesCollide, Interferences, Reads};
ghost use Rattle.tp_spec.specs.Pinned.{Lengths, Happenings, Running, ActOrder, Courses, Apart, Met, KeptByStart, KeptByOther, KeptByNone, KeptOnWay, KeptToEnd, MetBefore, NotMetByItself};
ghost use Rattle.tp_spec.specs.Pinned.{AllValid, NotFew, NotWithin, NotInOrder, NotOnce, NotInLength, NotInTurn, NotClosing, NotEnded, NotMetAtEnd, NotReached, ReachedAtEnd, EmptyPlan, SameActs, AtClock, NotAtClock, NotLater, NotCommitted};
ghost use Rattle.tp_spec.specs.Pinned.{Spelled, RunsAfter, TimedInTurn, EndsInTurn, StartsInTurn, Joins, Closed, NotClosed, Follows, IsSoundWord, NotSoundWord, WordParts, SoundByBefore, TwoActs};
ghost use Rattle.tp_spec.specs.Pinned.{Finishes, Awaited, Plans, Punctual, Shortest, Longest, Owing, GreatestIsLast, LeastIsFirst, GreatestOfOne, LeastOfOne, LiveParts};
ghost use Rattle.tp_spec.specs.Pinned.{NotRising, NotWithinHorizon, NotTimed, NotBeforeNext, TooShort, TooLong, NotEndingWithin, NotOpenLate, NotAtClockYet, SecondTooEarly, WrongCommitment, WrongLength, NotOwing, TooMany};
ghost use Rattle.tp_spec.specs.Pinned.{Candidates, Ranks, BestNodes, MarkOrder, BestOfTwo, OpenNodes};
ghost use Rattle.tp_spec.specs.Pinned.{FirstState, TickStep, SettlingSteps, TakeStep, ExpandStep, Outcomes, Readings};
ghost use Rattle.tp_spec.specs.Pinned.{NoneAfterOutcome, OfTakers, AtLimit, Dropped, Published, Exhausted, DueSoon, MarksAreLive, Expanded, Taken, PublishedLeast, DueAct, Settled, Quiet, Runs, Covered};
ghost use Rattle.tp_spec.specs.Pinned.{TurnEvents, LastTakes, Rests, BusyTakes, BusyMerges, BusyHistories};
ghost use Rattle.tp_spec.specs.Pinned.{PairsAndNeighbours, Fronts};

/// Pairs, neighbours and fronts of lists.
pub fn lists()
    ensures pairs { PairsAndNeighbours }
    ensures fronts { Fronts }
{}

/// States, values and conditions.
pub fn states()
    ensures comparisons { Comparisons }
    ensures operations { Operations }
    ensures values { Values }
    ensures literals { Literals }
    ensures undefined { UndefinedCompares }
    ensures start { StartStates }
    ensures compared_sides { ComparedSides }
{}

/// Items, what they ask, and what they do to a state.
pub fn items()
    ensures order { ItemOrder }
    ensures parts { Parts }
    ensures undefined { Undefined }
    ensures undefined_right { UndefinedRight }
    ensures own { Own }
    ensures changes { Changes }
    ensures facts { Facts }
    ensures fits { Fits }
    ensures states_after { StatesAfter }
{}

/// Which items may not stand at one tick.
pub fn interference()
    ensures literals { LiteralsDisturbed }
    ensures comparisons { ComparisonsDisturbed }
    ensures facts { FactsCollide }
    ensures changes { ChangesCollide }
    ensures items { Interferences }
    ensures reads { Reads }
{}

/// What stands at a tick, and the states that a plan goes through.
pub fn courses()
    ensures lengths { Lengths }
    ensures happenings { Happenings }
    ensures running { Running }
    ensures order { ActOrder }
    ensures states { Courses }
    ensures apart { Apart }
    ensures met { Met }
    ensures by_start { KeptByStart }
    ensures by_other { KeptByOther }
    ensures by_none { KeptByNone }
    ensures on_way { KeptOnWay }
    ensures to_end { KeptToEnd }
    ensures met_before { MetBefore }
    ensures not_met_by_itself { NotMetByItself }
{}

/// Which plans are valid, and which stay possible.
pub fn plans()
    ensures valid { AllValid }
    ensures not_few { NotFew }
    ensures not_within { NotWithin }
    ensures not_in_order { NotInOrder }
    ensures not_once { NotOnce }
    ensures not_in_length { NotInLength }
    ensures not_in_turn { NotInTurn }
    ensures not_closing { NotClosing }
    ensures not_ended { NotEnded }
    ensures not_met { NotMetAtEnd }
    ensures not_reached { NotReached }
    ensures reached { ReachedAtEnd }
    ensures empty { EmptyPlan }
    ensures same_acts { SameActs }
    ensures possible { AtClock }
    ensures not_at_clock { NotAtClock }
    ensures not_later { NotLater }
    ensures not_committed { NotCommitted }
{}

/// How plans are spelled, and which words are sound.
pub fn words()
    ensures spelled { Spelled }
    ensures runs_after { RunsAfter }
    ensures timed { TimedInTurn }
    ensures ends { EndsInTurn }
    ensures starts { StartsInTurn }
    ensures joining { Joins }
    ensures closed { Closed }
    ensures not_closed { NotClosed }
    ensures follows { Follows }
    ensures sound { IsSoundWord }
    ensures not_sound { NotSoundWord }
    ensures parts { WordParts }
    ensures sound_by_before { SoundByBefore }
    ensures two_acts { TwoActs }
{}

/// Which schedules a word has, and the plan of one.
pub fn schedules()
    ensures finishes { Finishes }
    ensures awaited { Awaited }
    ensures plans { Plans }
    ensures punctual { Punctual }
    ensures shortest { Shortest }
    ensures longest { Longest }
    ensures owing { Owing }
    ensures greatest { GreatestIsLast }
    ensures least { LeastIsFirst }
    ensures greatest_of_one { GreatestOfOne }
    ensures least_of_one { LeastOfOne }
    ensures live { LiveParts }
{}

/// What is no schedule of a word, part by part.
pub fn no_schedules()
    ensures not_rising { NotRising }
    ensures not_within { NotWithinHorizon }
    ensures not_timed { NotTimed }
    ensures not_before_next { NotBeforeNext }
    ensures too_short { TooShort }
    ensures too_long { TooLong }
    ensures not_ending_within { NotEndingWithin }
    ensures not_open_late { NotOpenLate }
    ensures not_at_clock { NotAtClockYet }
    ensures second_too_early { SecondTooEarly }
    ensures wrong_commitment { WrongCommitment }
    ensures wrong_length { WrongLength }
    ensures not_owing { NotOwing }
    ensures too_many { TooMany }
{}

/// What the search and the commit rule choose.
pub fn choices()
    ensures candidates { Candidates }
    ensures ranks { Ranks }
    ensures best { BestNodes }
    ensures marks { MarkOrder }
    ensures best_of_two { BestOfTwo }
    ensures open_nodes { OpenNodes }
{}

/// What each event does to the machine.
pub fn events()
    ensures first { FirstState }
    ensures tick { TickStep }
    ensures settling { SettlingSteps }
    ensures take { TakeStep }
    ensures expand { ExpandStep }
    ensures outcomes { Outcomes }
    ensures readings { Readings }
{}

/// What stands where an event is legal.
pub fn legal_events()
    ensures none_after_outcome { NoneAfterOutcome }
    ensures of_takers { OfTakers }
    ensures at_limit { AtLimit }
    ensures dropped { Dropped }
    ensures published { Published }
    ensures exhausted { Exhausted }
    ensures due_soon { DueSoon }
    ensures marks { MarksAreLive }
    ensures expanded { Expanded }
    ensures taken { Taken }
    ensures least { PublishedLeast }
    ensures due_act { DueAct }
    ensures settled { Settled }
    ensures quiet { Quiet }
    ensures runs { Runs }
    ensures covered { Covered }
{}

/// Which turns are busy.
pub fn turns()
    ensures events { TurnEvents }
    ensures takes { LastTakes }
    ensures rests { Rests }
    ensures busy_takes { BusyTakes }
    ensures busy_merges { BusyMerges }
    ensures busy { BusyHistories }
{}
