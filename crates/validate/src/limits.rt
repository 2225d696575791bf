// What is asked of limits and numbers.
ghost use Rattle.std.specs.Prelude.{◌≡◌, length};
ghost use Rattle.base.specs.Asked.{first_no};
ghost use Rattle.problem.specs.Loaded.{problem_of};
ghost use Rattle.validate.specs.Verdicts.{limits_asked, numbers_asked, plan_asked};

use crate::faults::row_fault;
use base::{Question, ask};
use problem::{Problem, Row, RowFault};
use rules::Limits;

// Questions 10, 11, 12 and 21.
pub(crate) fn check_limits(
    limits: Limits,
    facts: u16,
    size: u16,
    count: usize,
) -> Result<(), RowFault>
    ensures { result ≡ first_no (limits_asked limits facts size count) }
{
    ask(
        (1..=32).contains(&limits.levels),
        Question::LevelLimitInRange,
    )?;
    ask((1..=2000).contains(&limits.rows), Question::RowLimitInRange)?;
    ask(facts <= size, Question::StateLargeEnough)?;
    ask(count <= usize::from(limits.rows), Question::WithinRowLimit)?;
    Ok(())
}

// Question 4 of all rows.
#[tactic(auto, using(crate::proofs::Numbers::numbers_told))]
pub(crate) fn check_numbers(problem: &Problem, rows: &[Row]) -> Result<(), RowFault>
    ensures { result ≡ first_no (numbers_asked (problem_of problem.now) 1 rows.now) }
{
    problem
        .first_unknown(rows)
        .map_or(Ok(()), |row| Err(row_fault(Question::NumberInRange, row)))
}

// Whether the rows can be a plan of the problem at all: at most 2,000, each with a method or operator of the problem.
pub fn check_plan(problem: &Problem, rows: &[Row]) -> Result<(), RowFault>
    ensures { result ≡ first_no (plan_asked (problem_of problem.now) rows.now) }
{
    ask(rows.len() <= 2000, Question::WithinRowLimit)?;
    check_numbers(problem, rows)
}
