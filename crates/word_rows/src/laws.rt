ghost use Rattle.word_rows.specs.Laws.{OfWords, SchedulesAreKept, KeptAreSchedules, GreatestIsGreatest, LeastIsLeast, NoneIsNone};

/// The ticks that keep a word's bounds and rows, where the word has room, are its schedules: at
/// each clock and under all commitments, with timed items.
pub fn rows_of_schedules()
    ensures kept { OfWords SchedulesAreKept }
    ensures schedules { OfWords KeptAreSchedules }
{}

/// The greatest ticks that keep a word's bounds and rows are its greatest schedule, the least ones
/// its least, and where none keep them the word has no schedule.
pub fn schedules_of_solutions()
    ensures greatest { OfWords GreatestIsGreatest }
    ensures least { OfWords LeastIsLeast }
    ensures none { OfWords NoneIsNone }
{}
