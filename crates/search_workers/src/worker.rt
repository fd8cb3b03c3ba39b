ghost use Rattle.std.specs.Prelude.{◌≡◌, IfOk, IfErr};
ghost use Rattle.search_workers.specs.Sprouting.{CanSprout};

use crate::children::children_of;
use node_state::{Growth, Walker};
use open_tree::{Job, Sprouts};
use std::alloc::Global;
use std::marker::Model;
use tp_spec::{NoMemory, Problem};

/// A worker of the search: it finds what may come behind the words of one problem.
#[derive(Drop)]
pub struct Worker<'p> {
    alloc: Global,
    problem: &'p Problem,
    walker: Walker<'p>,
}

impl<'p> Model for Worker<'p> {
    ghost use Rattle.std.specs.Prelude.{◌≡◌};
    ghost use Rattle.tp_spec.specs.declared.problem.Problem.{Problem as Ground};
    ghost use Rattle.tp_spec.specs.contracts.expr.Expr as expr;
    ghost use Rattle.std.specs.Coded.{codes};

    ghost Value = { Ground };

    ghost coded = { Prim.hlevel (codes, expr.the_row.coded) };

    ghost view = { λ w. w.problem.now };

    ghost invariant = { λ w. w.walker ≡ w.problem.now };
}

impl<'p> Worker<'p> {
    /// A worker on a problem.
    pub fn new(alloc: Global, problem: &'p Problem) -> Result<Worker<'p>, NoMemory>
        ensures { IfOk result (λ w. w ≡ problem.now) }
    {
        let walker = Walker::new(alloc, problem)?;
        Ok(Worker {
            alloc,
            problem,
            walker,
        })
    }

    /// The sprouts of a job: the marks that make its word a live word under its view, each with the
    /// rank and the deadline of the longer word. Where memory is refused the job comes back.
    pub fn sprout(&mut self, job: Job<'p>) -> Result<Sprouts<'p>, (NoMemory, Job<'p>)>
        requires { CanSprout self.old job }
        ensures problem { self.new ≡ self.old }
        ensures sprouts { IfOk result (λ s. s.job ≡ job.entry) }
        ensures back { IfErr result (λ e. e.1 ≡ job.entry) }
    {
        let Ok(growth) = self.walker.growth(job.node().word()) else {
            return Err((NoMemory, job));
        };
        let Growth {
            marks,
            ranks,
            whole,
        } = growth;
        match children_of(
            self.alloc,
            self.problem,
            &job,
            marks.as_slice(),
            ranks.as_slice(),
        ) {
            Ok(children) => Ok(Sprouts::new(job, children, whole)),
            Err(NoMemory) => Err((NoMemory, job)),
        }
    }
}
