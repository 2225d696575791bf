// Operators and methods by their numbers. These are cast: behind `usize::from` the answers would have to follow an equation
// more.
ghost use Rattle.std.specs.Prelude.{◌≡◌, MatchOption};
ghost use Rattle.problem.specs.Data.{operator_of, method_of};
ghost use Rattle.problem.specs.Loaded.{problem_of};
ghost use Rattle.rules.specs.Tasks.{no_operator, no_method, operator_at, method_at};

use problem::{Method, Operator, Problem};

// The operator of that number, where the problem has it.
pub(crate) fn operator_at(problem: &Problem, number: u16) -> Option<&Operator>
    ensures { MatchOption result (operator_at (problem_of problem.now) number ≡ no_operator) (λ w. operator_at (problem_of problem.now) number ≡ operator_of w.now) }
{
    problem.operators.get(number as usize)
}

// The method of that number, where the problem has it.
pub(crate) fn method_at(problem: &Problem, number: u16) -> Option<&Method>
    ensures { MatchOption result (method_at (problem_of problem.now) number ≡ no_method) (λ w. method_at (problem_of problem.now) number ≡ method_of w.now) }
{
    problem.methods.get(number as usize)
}
