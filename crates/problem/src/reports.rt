// The lines that programs print of a fault and of a problem.
ghost use Rattle.text.specs.Rendered.{Written};
ghost use Rattle.problem.specs.Loaded.{problem_of};
ghost use Rattle.problem.specs.Reports.{fault_line, fault_bytes, summary, summary_bytes};

use crate::definition::Problem;
use crate::faults::Refusal;
use base::Question;
use text::{Render, Sink, number_line, put_bytes, put_number, write};

// A refusal of the text that the subject names.
#[derive(Drop)]
pub(crate) struct FaultLine<'a> {
    subject: &'a [u8],
    refusal: Refusal,
}

impl<'a> Render for FaultLine<'a> {
    ghost text = { fault_bytes };

    fn render<S: Sink>(&self, sink: &mut S) {
        put_bytes(sink, b"fault=");
        put_bytes(sink, self.subject);
        put_bytes(sink, b",");
        put_number(sink, usize::from(self.refusal.question.number()));
        put_bytes(sink, b",");
        put_number(sink, self.refusal.place.line);
        put_bytes(sink, b",");
        put_number(sink, self.refusal.place.byte);
        put_bytes(sink, b"\n");
    }
}

impl Refusal {
    // Writes `fault=`, the subject and the refusal's number, line and byte as one line; where the bytes are too few,
    // refuses and alters none.
    pub fn write_line(self, subject: &[u8], bytes: &mut [u8]) -> Result<usize, Question>
        ensures { Written (fault_line subject.now self) bytes.old bytes.new result }
    {
        write(
            bytes,
            &FaultLine {
                subject,
                refusal: self,
            },
        )
    }
}

// What was loaded from a text of so many bytes, and whether it was written back the same.
#[derive(Drop)]
pub(crate) struct Summary<'a> {
    problem: &'a Problem,
    bytes: usize,
    same: bool,
}

impl<'a> Render for Summary<'a> {
    ghost text = { summary_bytes };

    fn render<S: Sink>(&self, sink: &mut S) {
        number_line(sink, b"shop", usize::from(self.problem.number));
        number_line(sink, b"facts", usize::from(self.problem.facts));
        number_line(sink, b"ops", self.problem.operators.len());
        number_line(sink, b"tasks", usize::from(self.problem.tasks));
        number_line(sink, b"methods", self.problem.methods.len());
        number_line(sink, b"first", self.problem.first.len());
        number_line(sink, b"bytes", self.bytes);
        number_line(sink, b"same", usize::from(self.same));
    }
}

impl Problem {
    // Writes the problem's number and counts, the length of the text it was loaded from, and whether `back`, the text
    // it was written back as, is the same; where the bytes are too few, refuses and alters none.
    pub fn write_summary(
        &self,
        text: &[u8],
        back: &[u8],
        bytes: &mut [u8],
    ) -> Result<usize, Question>
        ensures { Written (summary (problem_of self.now) text.now back.now) bytes.old bytes.new result }
    {
        let same = text == back;
        write(
            bytes,
            &Summary {
                problem: self,
                bytes: text.len(),
                same,
            },
        )
    }
}
