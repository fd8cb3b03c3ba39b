ghost use Rattle.plan_text.specs.Laws.{ReadsBack};
ghost use Rattle.plan_text.specs.Rows.{PartsAreRows};

/// What `write_plan` gives of a plan of the problem's acts, in order and below 2^63 ticks, is read
/// as that plan.
pub fn reads_back()
    ensures { ReadsBack }
{}

/// A line has the parts of an act where it is a row `START : ( NAME )` or `START : ( NAME ) [
/// LENGTH ]` with white space between, and it is such a row of no other parts.
pub fn parts_are_rows()
    ensures { PartsAreRows }
{}
