// Whether a plan is a solution of a problem.
ghost use Rattle.std.specs.Prelude.{◌≡◌, ◌≤◌, [], length};
ghost use Rattle.base.specs.Asked.{first_no};
ghost use Rattle.problem.specs.Loaded.{problem_of};
ghost use Rattle.rules.specs.Places.{started};
ghost use Rattle.validate.specs.Stacks.{tasks_of, rows_of};
ghost use Rattle.validate.specs.Verdicts.{opening, following, asked};
ghost use Rattle.validate.specs.Judged.{Answers, Leaves, Validates};

use crate::faults::Fault;
use crate::limits::{check_limits, check_numbers};
use crate::rows::Check;
use crate::stack::OpenTasks;
use problem::{Problem, Row, RowFault};
use rules::{Limits, put_start};
use state::State;
use std::alloc::Global;

// Looks at the rows from the start facts on, and puts these back whatever is answered. The state is large enough, so that
// neither is refused.
#[tactic(auto, using(crate::proofs::Leaving::put_again))]
fn check_from_start<S: State>(
    check: &Check<'_>,
    state: &mut S,
    todo: OpenTasks,
) -> Result<(), RowFault>
    requires large { (problem_of check.now.problem.now).facts ≤ length (S.facts state.old) }
    requires none { tasks_of todo ≡ [] }
    ensures answer { result ≡ first_no (following (problem_of check.now.problem.now) check.now.conditions check.now.levels (rows_of todo.entry)) }
    ensures leaves { S.facts state.new ≡ started (problem_of check.now.problem.now) (S.facts state.old) }
{
    let _ = put_start(check.problem, state);
    let answer = check.check_rows(state, todo);
    let _ = put_start(check.problem, state);
    answer
}

// Answers the number of rows where the plan is a solution within the limits, and else the first question answered no.
// Facts are asked of the state alone, which is left with the problem's start facts once the rows were looked at.
#[tactic(auto, using(crate::proofs::Passing::validates), unfolding(problem::specs::Loaded::problem_of))]
pub fn validate<S: State>(
    heap: Global,
    problem: &Problem,
    rows: &[Row],
    limits: Limits,
    state: &mut S,
) -> Result<usize, Fault>
    ensures answer { Answers (opening (problem_of problem.now) limits (length (S.facts state.old)) rows.now) (asked (problem_of problem.now) limits (length (S.facts state.old)) rows.now) (length rows.now) result }
    ensures leaves { Leaves (problem_of problem.now) limits rows.now (S.facts state.old) result (S.facts state.new) }
    ensures exactly { Validates (problem_of problem.now) limits (length (S.facts state.old)) rows.now }
{
    check_limits(limits, problem.facts, state.size(), rows.len())?;
    check_numbers(problem, rows)?;
    let todo = OpenTasks::new(heap, rows)?;
    let check = Check {
        problem,
        levels: limits.levels,
        conditions: true,
    };
    check_from_start(&check, state, todo)?;
    Ok(rows.len())
}
