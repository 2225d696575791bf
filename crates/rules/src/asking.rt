// What is asked of a row at the first open task.
ghost use Rattle.std.specs.Prelude.{◌≡◌, take};
ghost use Rattle.problem.specs.Loaded.{problem_of};
ghost use Rattle.rules.specs.Tasks.{sub_of};
ghost use Rattle.rules.specs.Places.{yes_of, no_of, enabled, fits_level, level_right};

use crate::entries::OpenTask;
use crate::facts::conditions_hold;
use crate::numbered::{method_at, operator_at};
use problem::{Problem, Row};
use state::State;

// The facts that must hold for the row's operator or method, and those that must not; both none where there is no such one.
fn conditions_of(problem: &Problem, row: Row) -> (&[u16], &[u16])
    ensures yes { result.0.now ≡ yes_of (problem_of problem.now) row }
    ensures no { result.1.now ≡ no_of (problem_of problem.now) row }
{
    match row {
        Row::Do(operator) => operator_at(problem, operator).map_or(
            (&[], &[]),
            |entry| (entry.yes.as_slice(), entry.no.as_slice()),
        ),
        Row::By(method) => method_at(problem, method).map_or(
            (&[], &[]),
            |entry| (entry.yes.as_slice(), entry.no.as_slice()),
        ),
    }
}

// Whether the conditions of the row's operator or method hold. They speak of the problem's facts alone.
#[tactic(auto, using(crate::proofs::Conditions::enabled_is, problem::proofs::Texts::keeps))]
pub fn is_enabled<S: State>(problem: &Problem, row: Row, state: &S) -> bool
    ensures { result ≡ enabled (problem_of problem.now) row (take (problem_of problem.now).facts (S.facts state.now)) }
{
    let (yes, no) = conditions_of(problem, row);
    conditions_hold(state, yes, no)
}

// The tasks that the row puts in the place of its task: those of its method, and none where it does an operator.
pub fn subtasks(problem: &Problem, row: Row) -> &[u16]
    ensures { result.now ≡ sub_of (problem_of problem.now) row }
{
    match row {
        Row::Do(_) => &[],
        Row::By(method) => method_at(problem, method).map_or(&[], |entry| entry.sub.as_slice()),
    }
}

// Whether the subtasks may take the place of a task at this level.
fn fits_level(sub: &[u16], level: u8, levels: u8) -> bool
    ensures { result ≡ fits_level sub.now level levels }
{
    sub.is_empty() || level < levels
}

// Whether the row may be used at the task's level: an empty `sub` is not tested against the limit.
pub fn is_level(problem: &Problem, row: Row, levels: u8, task: OpenTask) -> bool
    ensures { result ≡ level_right (problem_of problem.now) levels row task }
{
    fits_level(subtasks(problem, row), task.level, levels)
}
