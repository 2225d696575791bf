// Why a text was not loaded.
ghost use Rattle.std.specs.Prelude.{◌≡◌};
ghost use Rattle.problem.specs.Faults.{row_fault};
ghost use Rattle.problem.specs.Reports.{refusal_of};
ghost use Rattle.problem.specs.declared.faults.LoadFault.TheVariants as load_fault;

use crate::definition::Problem;
use crate::entries::Row;
use base::Question;
use std::alloc::{AllocError, AllocFailed};
use std::marker::PhantomData;
use text::{Place, TextFault};

// The question that was answered no, and the place of what it was asked of.
#[derive(Clone, Copy, Debug)]
pub struct Refusal {
    pub question: Question,
    pub place: Place,
}

// The question that was answered no, and the row of what it was asked of: rows count from 1, and 0 stands for none, as it
// is printed.
#[derive(Clone, Copy, Debug)]
pub struct RowFault {
    pub question: Question,
    pub row: usize,
}

// A question that is asked of all rows together has row 0.
impl From<Question> for RowFault {
    ghost from_gives = { λ q f. f ≡ row_fault q 0 };

    fn from(question: Question) -> RowFault {
        RowFault { question, row: 0 }
    }
}

// Why a text was not loaded as a `W`: the text is at fault, an entry of it is, or memory is wanting. `W` has to stand
// somewhere in it.
#[derive_where(Clone, Copy, Debug)]
pub enum LoadFault<W> {
    Text(TextFault),
    Entry(Refusal),
    Memory(PhantomData<W>),
}

// A problem file and a plan text have faults of two types, so that a program can tell by `From` which of them is at fault.
pub type ProblemFault = LoadFault<Problem>;

pub type PlanFault = LoadFault<Row>;

impl<W> From<TextFault> for LoadFault<W> {
    ghost from_gives = { λ f r. r ≡ load_fault.Text f };

    fn from(f: TextFault) -> LoadFault<W> {
        LoadFault::Text(f)
    }
}

impl<W> From<Refusal> for LoadFault<W> {
    ghost from_gives = { λ f r. r ≡ load_fault.Entry f };

    fn from(f: Refusal) -> LoadFault<W> {
        LoadFault::Entry(f)
    }
}

impl<W> From<AllocError> for LoadFault<W> {
    ghost from_gives = { λ _ r. r ≡ load_fault.Memory (record {}) };

    fn from(_e: AllocError) -> LoadFault<W> {
        LoadFault::Memory(PhantomData)
    }
}

impl<W, T: Drop> From<AllocFailed<T>> for LoadFault<W> {
    ghost from_gives = { λ _ r. r ≡ load_fault.Memory (record {}) };

    fn from(_e: AllocFailed<T>) -> LoadFault<W> {
        LoadFault::Memory(PhantomData)
    }
}

impl<W> LoadFault<W> {
    // The question and the place, whoever asked; want of memory has none.
    pub fn refusal(self) -> Option<Refusal>
        ensures { result ≡ refusal_of self }
    {
        match self {
            LoadFault::Text(f) => Some(Refusal {
                question: f.question,
                place: f.place,
            }),
            LoadFault::Entry(f) => Some(f),
            LoadFault::Memory(_) => None,
        }
    }
}
