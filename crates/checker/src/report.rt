// The line that tells what the two files come to.
ghost use Rattle.checker.specs.Reports.{answer_line, Reported};

use crate::faults::CheckFault;
use base::Question;
use problem::RowFault;
use validate::write_verdict;

// Writes the line for what was judged: the verdict, or which file is at fault and where. Where the bytes are too few, refuses and
// alters none; want of memory has no line.
pub fn write_answer(
    answer: Result<Result<usize, RowFault>, CheckFault>,
    bytes: &mut [u8],
) -> Option<Result<usize, Question>>
    ensures { Reported (answer_line answer) bytes.old bytes.new result }
{
    match answer {
        Ok(verdict) => Some(write_verdict(verdict, bytes)),
        Err(CheckFault::Shop(fault)) => {
            let refusal = fault.refusal()?;
            Some(refusal.write_line(b"shop", bytes))
        }
        Err(CheckFault::List(fault)) => {
            let refusal = fault.refusal()?;
            Some(refusal.write_line(b"list", bytes))
        }
        Err(CheckFault::Memory) => None,
    }
}
