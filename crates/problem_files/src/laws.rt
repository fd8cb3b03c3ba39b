ghost use Rattle.problem_files.specs.Laws.{HaveOneProblem, HaveOneFault, HaveNoFault};
ghost use Rattle.problem_files.specs.Rules.{GroundWhereFit};

/// Two texts have one answer at most, want of memory apart: what [`crate::read_pddl`] ensures of
/// its answer leaves no other.
pub fn answers_are_one()
    ensures problem { HaveOneProblem }
    ensures fault { HaveOneFault }
    ensures apart { HaveNoFault }
{}

/// A domain and a problem that fit have a ground problem where no count is past its limit: what is
/// left to be known of a text, for [`crate::read_pddl`] never to find a rule broken.
pub fn fitting_is_enough()
    ensures { GroundWhereFit }
{}
