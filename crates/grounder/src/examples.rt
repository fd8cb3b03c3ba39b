ghost use Rattle.grounder.specs.Pinned.{Trip, TripFits, ObjectsOfTypes, Orders, NotStatic, Labels, TakenOut, WithoutValue, WithoutRight, Replaced, EmptyRanges, Ranges, WrittenTwice, Goals, GoalFluents, Sorted, TimedInOrder, Counts};
ghost use Rattle.grounder.specs.Grounded.{IsGroundable};
ghost use Rattle.grounder.specs.Samples.{trip};

/// A whole problem, with a predicate called `at`.
pub fn a_trip()
    ensures problem { Trip }
    ensures fits { TripFits }
    ensures groundable { IsGroundable 1 trip }
{}

/// Types, objects and substitutions.
pub fn substitutions()
    ensures objects { ObjectsOfTypes }
    ensures orders { Orders }
{}

/// What is static, and what static conditions do.
pub fn static_conditions()
    ensures not_static { NotStatic }
    ensures labels { Labels }
    ensures taken_out { TakenOut }
{}

/// Static functions with and without a value.
pub fn static_functions()
    ensures without_value { WithoutValue }
    ensures without_right { WithoutRight }
    ensures replaced { Replaced }
{}

/// Ranges of lengths.
pub fn lengths()
    ensures empty { EmptyRanges }
    ensures ranges { Ranges }
{}

/// Fluents that one end writes twice.
pub fn written_twice()
    ensures { WrittenTwice }
{}

/// Goals, names and counts.
pub fn goals()
    ensures goals { Goals }
    ensures fluents { GoalFluents }
    ensures sorted { Sorted }
    ensures timed { TimedInOrder }
    ensures counts { Counts }
{}
