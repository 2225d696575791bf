// Writes a plan as its text.
ghost use Rattle.std.specs.Prelude.{◌≡◌, ◌<◌, ◌≤◌, not, length, position, IfOk, IfSome};
ghost use Rattle.problem.specs.Loaded.{problem_of};
ghost use Rattle.problem.specs.Plans.{row_text, plan_text, plan_refusal, known, unknown_in, PlanWritten, PlanLoadsBack};

use crate::definition::Problem;
use crate::entries::Row;
use crate::faults::RowFault;
use crate::listing::Listing;
use base::{Question, ask};
use text::{Render, Sink, number_line, write};

impl Render for Row {
    ghost text = { row_text };

    fn render<S: Sink>(&self, sink: &mut S) {
        match *self {
            Row::By(method) => number_line(sink, b"by", usize::from(method)),
            Row::Do(operator) => number_line(sink, b"do", usize::from(operator)),
        }
    }
}

impl Problem {
    // Whether the row names a method or an operator of the problem.
    #[tactic(auto, using(crate::proofs::Texts::methods_are, crate::proofs::Texts::operators_are))]
    fn knows(&self, row: Row) -> bool
        ensures { result ≡ known (problem_of self.now) row }
    {
        match row {
            Row::By(method) => usize::from(method) < self.methods.len(),
            Row::Do(operator) => usize::from(operator) < self.operators.len(),
        }
    }

    // The index of the first row that names no method or operator of the problem.
    fn unknown(&self, rows: &[Row]) -> Option<usize>
        ensures is { result ≡ position (λ r. not (known (problem_of self.now) r)) rows.now }
        ensures within { IfSome result (λ at. at < length rows.now) }
    {
        rows.iter().position(|row| !self.knows(*row))
    }

    // Question 4 of a plan: the first row, counted from 1, that names no method or operator of the problem.
    pub fn first_unknown(&self, rows: &[Row]) -> Option<usize>
        ensures { result ≡ unknown_in (problem_of self.now) rows.now }
    {
        let at = self.unknown(rows)?;
        Some(at + 1)
    }

    // Writes the plan's text at the start of the bytes and answers its length; a refusal alters nothing.
    pub fn write_plan(&self, rows: &[Row], bytes: &mut [u8]) -> Result<usize, RowFault>
        ensures writes { PlanWritten (plan_text (problem_of self.now) rows.now) (plan_refusal (problem_of self.now) rows.now) bytes.old bytes.new result }
        ensures within { IfOk result (λ n. n ≤ length bytes.old) }
        ensures loads_back { PlanLoadsBack (problem_of self.now) rows.now bytes.new result }
    {
        // validation asks the same two questions; a call for both would be public
        ask(rows.len() <= 2000, Question::WithinRowLimit)?;
        if let Some(row) = self.first_unknown(rows) {
            return Err(RowFault {
                question: Question::NumberInRange,
                row,
            });
        }
        let lines = Listing {
            number: self.number,
            items: rows,
        };
        let count = write(bytes, &lines)?;
        Ok(count)
    }
}
