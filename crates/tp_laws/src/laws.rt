ghost use Rattle.tp_laws.specs.Laws.{NoItemsChangeNothing, QuietTicksChangeNothing, OrderChangesNothing, TogetherAsOneByOne, OfValid, EndsAtLastGroup, WordGivesEnd, ReadsStates, ReadsToGoal};

/// A set of no items changes nothing, and so a tick that is no happening changes nothing either.
pub fn nothing_happens()
    ensures items { NoItemsChangeNothing }
    ensures ticks { QuietTicksChangeNothing }
{}

/// The order in which a happening's items are listed changes nothing, since no two of them
/// interfere. Together they do what they do one after another, where no value in between is held to
/// 64 bits: only the values after the last of them are.
///
/// PDDL 2.1, section 6 (a happening is a set of actions).
pub fn order_of_items()
    ensures order { OrderChangesNothing }
    ensures sequence { TogetherAsOneByOne }
{}

/// A valid plan ends at its word's last group: the word has a group for each happening up to the
/// end, and the acts and the word give the end.
pub fn end_of_word()
    ensures last { OfValid EndsAtLastGroup }
    ensures given { WordGivesEnd }
{}

/// Reading a valid plan's word leads through the states of its course, up to one in which the goal
/// holds.
pub fn states_read()
    ensures course { OfValid ReadsStates }
    ensures goal { OfValid ReadsToGoal }
{}
