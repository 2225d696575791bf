// The line that tells whether a plan passed.
ghost use Rattle.text.specs.Rendered.{Written};
ghost use Rattle.validate.specs.Reports.{verdict_line, verdict_bytes};

use base::Question;
use problem::RowFault;
use text::{Render, Sink, number_line, put_bytes, put_number, write};

// How many rows passed, or the question that was answered no.
#[derive(Drop)]
pub(crate) struct Verdict {
    answer: Result<usize, RowFault>,
}

impl Render for Verdict {
    ghost text = { verdict_bytes };

    fn render<S: Sink>(&self, sink: &mut S) {
        match self.answer {
            Ok(rows) => number_line(sink, b"pass", rows),
            Err(fault) => {
                put_bytes(sink, b"fail=");
                put_number(sink, fault.question.number() as usize);
                put_bytes(sink, b",");
                put_number(sink, fault.row);
                put_bytes(sink, b"\n");
            }
        }
    }
}

// Writes `pass=` and the number of rows, or `fail=` and the refusal's number and row, as one line; where the bytes are too
// few, refuses and alters none.
pub fn write_verdict(answer: Result<usize, RowFault>, bytes: &mut [u8]) -> Result<usize, Question>
    ensures { Written (verdict_line answer) bytes.old bytes.new result }
{
    write(bytes, &Verdict { answer })
}
