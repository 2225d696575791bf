// Why a plan did not pass.
ghost use Rattle.std.specs.Prelude.{◌≡◌};
ghost use Rattle.problem.specs.Plans.{row_fault};
ghost use Rattle.validate.specs.declared.faults.Fault.TheVariants as fault;

use base::Question;
use problem::RowFault;
use std::alloc::AllocError;

// A question was answered no, or memory is wanting.
#[derive(Clone, Copy, Debug)]
pub enum Fault {
    Refused(RowFault),
    Memory,
}

impl From<RowFault> for Fault {
    ghost from_gives = { λ f r. r ≡ fault.Refused f };

    fn from(f: RowFault) -> Fault {
        Fault::Refused(f)
    }
}

impl From<AllocError> for Fault {
    ghost from_gives = { λ _ r. r ≡ fault.Memory };

    fn from(_e: AllocError) -> Fault {
        Fault::Memory
    }
}

// The question that was answered no, and the row of what it was asked of.
pub(crate) fn row_fault(question: Question, row: usize) -> RowFault
    ensures { result ≡ row_fault question row }
{
    RowFault { question, row }
}
