// Loads a plan text.
ghost use Rattle.std.specs.Prelude.{◌≡◌, ◌≤◌, ◌++◌, length, drop, vec_items, codes};
ghost use Rattle.problem.specs.Formats.{a_number, times};
ghost use Rattle.problem.specs.Plans.{same_shop, fitting, row as row_format, RowsRead, RowsLoaded, PlanExactly};
ghost use Rattle.problem.specs.Reads.{from, Reads, same};
ghost use Rattle.problem.specs.Stops.{Stops};
ghost use Rattle.problem.specs.Loaded.{problem_of};

use crate::definition::Problem;
use crate::entries::Row;
use crate::faults::PlanFault;
use crate::loader::{Loader, ranged};
use base::{Question, store};
use std::alloc::Global;

// The problem's number, and no other.
fn read_shop(loader: &mut Loader<'_, Row>, number: u16) -> Result<u16, PlanFault>
    ensures { Reads (from (a_number (codes "shop") (same_shop number)) loader.old.reader) same result loader.new.reader }
{
    loader.judged(b"shop", |n| (n != number).then_some(Question::SameProblem))
}

// Questions 4 and 9 of the number of rows, for a slice that has room for `room`.
#[tactic(auto, using(crate::proofs::PlanReading::count_asked))]
fn fits(room: usize, n: u16) -> Option<Question>
    ensures { result ≡ fitting room n }
{
    ranged(n, 0, 2001).or((usize::from(n) > room).then_some(Question::SliceLongEnough))
}

// How many rows follow, of which the slice has room for `room`.
fn read_count(loader: &mut Loader<'_, Row>, room: usize) -> Result<u16, PlanFault>
    ensures { Reads (from (a_number (codes "rows") (fitting room)) loader.old.reader) same result loader.new.reader }
{
    loader.judged(b"rows", |n| fits(room, n))
}

fn read_row(loader: &mut Loader<'_, Row>, methods: usize, ops: usize) -> Result<Row, PlanFault>
    ensures { Reads (from (row_format methods ops) loader.old.reader) same result loader.new.reader }
{
    if loader.begins(b"by") {
        let method = loader.number(b"by", 0, methods)?;
        return Ok(Row::By(method));
    }
    let operator = loader.number(b"do", 0, ops)?;
    Ok(Row::Do(operator))
}

fn read_rows(
    loader: &mut Loader<'_, Row>,
    n: u16,
    methods: usize,
    ops: usize,
) -> Result<Vec<Row>, PlanFault>
    ensures { Reads (from (times n (row_format methods ops)) loader.old.reader) vec_items result loader.new.reader }
{
    loader.times(n, |l| read_row(l, methods, ops))
}

fn read_plan(
    problem: &Problem,
    heap: Global,
    text: &[u8],
    room: usize,
) -> Result<Vec<Row>, PlanFault>
    ensures { RowsRead (problem_of problem.now) room text.now result }
{
    let (methods, ops) = (problem.methods.len(), problem.operators.len());
    let mut loader = Loader::new(heap, text);
    read_shop(&mut loader, problem.number)?;
    let count = read_count(&mut loader, room)?;
    let rows = read_rows(&mut loader, count, methods, ops)?;
    loader.finish()?;
    Ok(rows)
}

// Puts the rows at the start of the slice, which has room for them, by the one routine that stores an entry.
fn store_rows(rows: &mut [Row], from: &[Row])
    requires { length from.now ≤ length rows.old }
    ensures { rows.new ≡ from.now ++ drop (length from.now) rows.old }
{
    for (at, row) in from.iter().enumerate() {
        let _ = store(rows, at, *row);
    }
}

impl Problem {
    // The rows of a plan text, of which there are at most 2,000, or what is wrong with it.
    #[tactic(auto, using(crate::proofs::Stopping::rows_stop))]
    pub fn load_rows(&self, heap: Global, text: &[u8]) -> Result<Vec<Row>, PlanFault>
        ensures reads { RowsRead (problem_of self.now) 2000 text.now result }
        ensures stops { Stops text.now result }
    {
        read_plan(self, heap, text, 2000)
    }

    // Puts the rows of a plan text at the start of the slice and answers how many they are, or says what is wrong and
    // leaves the slice as it was.
    pub fn load_plan(&self, heap: Global, text: &[u8], rows: &mut [Row]) -> Result<usize, PlanFault>
        ensures fills { RowsLoaded (problem_of self.now) text.now rows.old result rows.new }
        ensures exactly { PlanExactly (problem_of self.now) (length rows.old) text.now }
        ensures stops { Stops text.now result }
    {
        let loaded = read_plan(self, heap, text, rows.len())?;
        store_rows(rows, &loaded);
        Ok(loaded.len())
    }
}
