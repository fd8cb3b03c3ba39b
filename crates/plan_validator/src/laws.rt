ghost use Rattle.plan_validator.specs.Laws.{OnlyValidOfValid};

/// A plan is valid exactly where its verdict says so: no valid plan has another one.
pub fn only_valid_of_valid()
    ensures { OnlyValidOfValid }
{}
