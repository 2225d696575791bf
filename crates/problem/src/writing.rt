// Writes a problem as its file.
ghost use Rattle.std.specs.Prelude.{◌≡◌, ◌≤◌, true, length, is_ok};
ghost use Rattle.text.specs.Fed.{Fed};
ghost use Rattle.text.specs.Rendered.{Written};
ghost use Rattle.problem.specs.Files.{text_of};
ghost use Rattle.problem.specs.Loaded.{problem_of, LoadsBack};
ghost use Rattle.problem.specs.Texts.{operator_bytes, method_bytes, head_bytes, problem_bytes};

use crate::definition::Problem;
use crate::entries::{Method, Operator};
use base::Question;
use text::{Render, Sink, list_line, number_line, put_all, write};

impl Render for Operator {
    ghost text = { operator_bytes };

    fn render<S: Sink>(&self, sink: &mut S) {
        number_line(sink, b"shelf", usize::from(self.shelf));
        list_line(sink, b"yes", self.yes.as_slice());
        list_line(sink, b"no", self.no.as_slice());
        list_line(sink, b"add", self.add.as_slice());
        list_line(sink, b"del", self.del.as_slice());
    }
}

impl Render for Method {
    ghost text = { method_bytes };

    fn render<S: Sink>(&self, sink: &mut S) {
        number_line(sink, b"for", usize::from(self.task));
        list_line(sink, b"yes", self.yes.as_slice());
        list_line(sink, b"no", self.no.as_slice());
        list_line(sink, b"sub", self.sub.as_slice());
    }
}

fn head_lines<S: Sink>(sink: &mut S, p: &Problem)
    ensures { Fed S.takes sink.old (head_bytes p.now) sink.new }
{
    number_line(sink, b"shop", usize::from(p.number));
    number_line(sink, b"facts", usize::from(p.facts));
    number_line(sink, b"ops", p.operators.len());
    number_line(sink, b"tasks", usize::from(p.tasks));
    number_line(sink, b"methods", p.methods.len());
    list_line(sink, b"start", p.start.as_slice());
    list_line(sink, b"first", p.first.as_slice());
}

impl Render for Problem {
    ghost text = { problem_bytes };

    fn render<S: Sink>(&self, sink: &mut S) {
        head_lines(sink, self);
        put_all(sink, self.operators.as_slice());
        put_all(sink, self.methods.as_slice());
    }
}

// No problem's text is longer.
pub const LONGEST: usize = 25679;

impl Problem {
    // Writes the problem's text at the start of the bytes and answers its length; where they are too few, refuses and
    // alters none.
    pub fn write(&self, bytes: &mut [u8]) -> Result<usize, Question>
        ensures writes { Written (text_of (problem_of self.now)) bytes.old bytes.new result }
        ensures never_longer { 25679 ≤ length bytes.old → is_ok result ≡ true }
        ensures loads_back { LoadsBack (problem_of self.now) bytes.new result }
    {
        write(bytes, self)
    }
}
