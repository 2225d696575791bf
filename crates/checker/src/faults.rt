// Why there is no verdict.
ghost use Rattle.std.specs.Prelude.{◌≡◌};
ghost use Rattle.checker.specs.declared.faults.CheckFault.TheVariants as check_fault;

use problem::{PlanFault, ProblemFault};
use std::alloc::AllocError;

// The problem file or the plan text was not loaded, for the reason that its fault has, or memory is wanting.
#[derive(Clone, Copy)]
pub enum CheckFault {
    Shop(ProblemFault),
    List(PlanFault),
    Memory,
}

impl From<ProblemFault> for CheckFault {
    ghost from_gives = { λ f r. r ≡ check_fault.Shop f };

    fn from(f: ProblemFault) -> CheckFault {
        CheckFault::Shop(f)
    }
}

impl From<PlanFault> for CheckFault {
    ghost from_gives = { λ f r. r ≡ check_fault.List f };

    fn from(f: PlanFault) -> CheckFault {
        CheckFault::List(f)
    }
}

impl From<AllocError> for CheckFault {
    ghost from_gives = { λ _ r. r ≡ check_fault.Memory };

    fn from(_e: AllocError) -> CheckFault {
        CheckFault::Memory
    }
}
