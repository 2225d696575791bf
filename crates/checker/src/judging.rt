// A problem file and a plan text, judged.
ghost use Rattle.problem.specs.Loaded.{problem_of};
ghost use Rattle.checker.specs.Judging.{RowsJudged, Judges};

use crate::faults::CheckFault;
use problem::{Problem, Row, RowFault};
use rules::WIDEST;
use state::BitState;
use std::alloc::Global;
use validate::{Fault, validate};

// Whether the rows solve the problem within 32 levels and 2,000 rows. By cases, since those of validation become the ones of
// two nested Results.
fn judge_rows(
    heap: Global,
    problem: &Problem,
    rows: &[Row],
) -> Result<Result<usize, RowFault>, CheckFault>
    ensures { RowsJudged (problem_of problem.now) rows.now result }
{
    let mut state = BitState::new();
    match validate(heap, problem, rows, WIDEST, &mut state) {
        Ok(n) => Ok(Ok(n)),
        Err(Fault::Refused(fault)) => Ok(Err(fault)),
        Err(Fault::Memory) => Err(CheckFault::Memory),
    }
}

// Whether the plan solves the problem, or why one of the files was not loaded.
pub fn judge(heap: Global, shop: &[u8], list: &[u8]) -> Result<Result<usize, RowFault>, CheckFault>
    ensures { Judges shop.now list.now result }
{
    let mut problem = Problem::new(heap)?;
    problem.load(heap, shop)?;
    let rows = problem.load_rows(heap, list)?;
    judge_rows(heap, &problem, rows.as_slice())
}
