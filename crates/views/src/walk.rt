// The walk along the stops of a plan, which are its `do` rows.
ghost use Rattle.std.specs.Prelude.{◌≡◌, ◌≤◌, length};
ghost use Rattle.base.specs.Asked.{first_no};
ghost use Rattle.text.specs.Rendered.{Written};
ghost use Rattle.problem.specs.Loaded.{problem_of};
ghost use Rattle.rules.specs.Tasks.{operator_at};
ghost use Rattle.views.specs.Walks.{here, standing, done_asked, found, step_of, shown, moved, Stands, Finds, Shows, Moves, step_text};

use base::Question;
use problem::{Problem, Row, RowFault};
use text::{Render, Sink, put_bytes, put_number, write};
use validate::check_plan;

// Where a walk goes on from: rows count from 1, and a place past the last one is that of a walk that is over.
#[derive(Clone, Copy, Debug)]
pub struct Walk {
    place: usize,
}

// What is shown at a stop: its shelf code, and how many rows come after it.
#[derive(Clone, Copy, Debug, PartialEq, Eq)]
pub struct Step {
    pub shelf: u16,
    pub remaining: usize,
}

// The row at which a walk stands, and its operator.
#[derive(Clone, Copy)]
struct Stop {
    row: usize,
    operator: u16,
}

// The stop at the row with this number, where it is one at or after the place.
fn stop_here(row: Row, number: usize, place: usize) -> Option<Stop>
    ensures { result ≡ here place number row }
{
    match row {
        Row::Do(operator) if number >= place => Some(Stop {
            row: number,
            operator,
        }),
        _ => None,
    }
}

// The first `do` row at or after the place.
fn find(rows: &[Row], place: usize) -> Option<Stop>
    ensures is { result ≡ standing place rows.now }
    ensures means { Stands place rows.now result }
{
    rows.iter()
        .enumerate()
        .find_map(|(index, row)| stop_here(*row, index + 1, place))
}

// The operator's shelf code; 0 where there is no such operator, as the definitions have it. `rules` looks operators up by a
// function of its own, and the number is cast as there.
fn shelf(problem: &Problem, operator: u16) -> u16
    ensures { result ≡ (operator_at (problem_of problem.now) operator).shelf }
{
    problem
        .operators
        .get(operator as usize)
        .map_or(0, |entry| entry.shelf)
}

impl Render for Step {
    ghost text = { step_text };

    fn render<S: Sink>(&self, sink: &mut S) {
        put_bytes(sink, b"step=");
        put_number(sink, usize::from(self.shelf));
        put_bytes(sink, b",");
        put_number(sink, self.remaining);
        put_bytes(sink, b"\n");
    }
}

impl Step {
    // Writes the step as one line; where the bytes are too few, refuses and alters none.
    pub fn write_line(self, bytes: &mut [u8]) -> Result<usize, Question>
        ensures { Written (step_text self) bytes.old bytes.new result }
    {
        write(bytes, &self)
    }
}

// What is shown at the stop.
fn step_at(problem: &Problem, rows: &[Row], stop: Stop) -> Step
    requires { stop.row ≤ length rows.now }
    ensures { result ≡ step_of (problem_of problem.now) rows.now stop }
{
    Step {
        shelf: shelf(problem, stop.operator),
        remaining: rows.len() - stop.row,
    }
}

impl Walk {
    // At the first row.
    pub fn new() -> Walk
        ensures { result.place ≡ 1 }
    {
        Walk { place: 1 }
    }

    // Where the walk stands, or nothing when it is over.
    fn stop(&self, problem: &Problem, rows: &[Row]) -> Result<Option<Stop>, RowFault>
        ensures is { result ≡ found (problem_of problem.now) self.now.place rows.now }
        ensures means { Finds self.now.place rows.now result }
    {
        check_plan(problem, rows)?;
        Ok(find(rows, self.place))
    }

    // What is to be done where the walk stands, or nothing when it is over.
    pub fn show(&self, problem: &Problem, rows: &[Row]) -> Result<Option<Step>, RowFault>
        ensures is { result ≡ shown (problem_of problem.now) rows.now (found (problem_of problem.now) self.now.place rows.now) }
        ensures means { Shows (problem_of problem.now) self.now.place rows.now result }
    {
        let stop = self.stop(problem, rows)?;
        Ok(stop.map(|stop| step_at(problem, rows, stop)))
    }

    // Goes on behind the row where the walk stands; a refusal leaves the place.
    pub fn done(&mut self, problem: &Problem, rows: &[Row]) -> Result<(), RowFault>
        ensures is { result ≡ first_no (done_asked (problem_of problem.now) self.old.place rows.now) }
        ensures place { self.new.place ≡ moved self.old.place (found (problem_of problem.now) self.old.place rows.now) }
        ensures means { Moves self.old.place rows.now result self.new.place }
    {
        let stop = self.stop(problem, rows)?.ok_or(Question::WalkNotOver)?;
        self.place = stop.row + 1;
        Ok(())
    }
}
