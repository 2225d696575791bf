// What a task number is, and which rows are for it.
ghost use Rattle.std.specs.Prelude.{◌≡◌};
ghost use Rattle.problem.specs.Loaded.{problem_of};
ghost use Rattle.rules.specs.Tasks.{kind_among, kind_of, target_of, suits_kind, suits};

use crate::numbered::method_at;
use problem::{Problem, Row};

// A task number read against a problem. Three cases by name, as the rules have them, and no Option of two.
#[derive(Clone, Copy, Debug)]
pub enum TaskKind {
    Operator(u16),
    Compound(u16),
    OutOfRange,
}

// A number below `operators` is that operator, and one of the next `compounds` is a compound task.
fn kind_among(operators: usize, compounds: u16, task: u16) -> TaskKind
    ensures { result ≡ kind_among operators compounds task }
{
    match task {
        t if usize::from(t) < operators => TaskKind::Operator(t),
        t if usize::from(t) - operators < usize::from(compounds) => TaskKind::Compound(t),
        _ => TaskKind::OutOfRange,
    }
}

// What the task number means in the problem.
#[tactic(auto, using(problem::proofs::Texts::operators_are), unfolding(problem::specs::Loaded::problem_of))]
pub fn task_kind(problem: &Problem, task: u16) -> TaskKind
    ensures { result ≡ kind_of (problem_of problem.now) task }
{
    kind_among(problem.operators.len(), problem.tasks, task)
}

// The task that the row's method is for; 0 where there is no such method, as the definitions have it.
fn target(problem: &Problem, row: Row) -> u16
    ensures { result ≡ target_of (problem_of problem.now) row }
{
    match row {
        Row::Do(_) => 0,
        Row::By(method) => method_at(problem, method).map_or(0, |entry| entry.task),
    }
}

// A row against a task: `target` is the task that the row's method is for.
fn suits_kind(row: Row, target: u16, kind: TaskKind) -> bool
    ensures { result ≡ suits_kind row target kind }
{
    match (row, kind) {
        (Row::Do(operator), TaskKind::Operator(task)) => operator == task,
        (Row::By(_), TaskKind::Compound(task)) => target == task,
        _ => false,
    }
}

// Whether the row is for the task.
pub fn is_for(problem: &Problem, row: Row, task: u16) -> bool
    ensures { result ≡ suits (problem_of problem.now) row task }
{
    suits_kind(row, target(problem, row), task_kind(problem, task))
}
