// Whether the rows of a plan decompose the problem's first tasks.
ghost use Rattle.std.specs.Prelude.{length};
ghost use Rattle.problem.specs.Loaded.{problem_of};
ghost use Rattle.validate.specs.Verdicts.{plan_asked, decomposition_asked};
ghost use Rattle.validate.specs.Judged.{Answers};

use crate::faults::Fault;
use crate::limits::check_plan;
use crate::nothing::NoFacts;
use crate::rows::Check;
use crate::stack::OpenTasks;
use problem::{Problem, Row};
use std::alloc::Global;

// What validation asks at 32 levels and 2,000 rows, but for the state's size and the conditions: what a plan's tree needs.
#[tactic(auto, using(crate::proofs::Decomposing::plan_no, crate::proofs::Decomposing::rows_decide, crate::proofs::Decomposing::following_any))]
pub fn check_decomposition(heap: Global, problem: &Problem, rows: &[Row]) -> Result<usize, Fault>
    ensures { Answers (plan_asked (problem_of problem.now) rows.now) (decomposition_asked (problem_of problem.now) rows.now) (length rows.now) result }
{
    check_plan(problem, rows)?;
    let todo = OpenTasks::new(heap, rows)?;
    let check = Check {
        problem,
        levels: 32,
        conditions: false,
    };
    check.check_rows(&mut NoFacts {}, todo)?;
    Ok(rows.len())
}
