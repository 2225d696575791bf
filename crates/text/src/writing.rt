// Writes numbers, lists and lines to a sink, and whole values into bytes.
ghost use Rattle.std.specs.Prelude.{◌≡◌, ◌≤◌, [], ◌∷◌, ◌++◌, length, drop, decimal};
ghost use Rattle.text.specs.Lists.{list, line_of, each};
ghost use Rattle.std.specs.Option.{option_copied};
ghost use Rattle.text.specs.Rendered.{Measured, Written, written_part};
ghost use Rattle.text.specs.Sinks.{Feeds};

use crate::render::Render;
use crate::sink::Sink;
use crate::slices::{Lent, Room};
use base::Question;
use itoa::Buffer;

// Writes the bytes.
#[tactic(auto, using(crate::proofs::Feeding::bytes_fed))]
pub fn put_bytes<S: Sink>(sink: &mut S, bs: &[u8])
    ensures { Feeds S.takes sink.old bs.now sink.new }
{
    for b in bs {
        sink.put(*b);
    }
}

// Writes the number in decimal.
pub fn put_number<S: Sink>(sink: &mut S, n: usize)
    ensures { Feeds S.takes sink.old (decimal n) sink.new }
{
    put_bytes(sink, Buffer::new().format(n).as_bytes());
}

// Writes the numbers with commas between them.
#[tactic(auto, using(crate::proofs::Feeding::numbers_fed))]
pub fn put_list<S: Sink>(sink: &mut S, ns: &[u16])
    ensures { Feeds S.takes sink.old (list ns.now) sink.new }
{
    if let Some((first, others)) = ns.split_first() {
        put_number(sink, usize::from(*first));
        for n in others {
            put_bytes(sink, b",");
            put_number(sink, usize::from(*n));
        }
    }
}

impl Render for usize {
    ghost text = { decimal };

    fn render<S: Sink>(&self, sink: &mut S) {
        put_number(sink, *self);
    }
}

impl<'a> Render for &'a [u16] {
    ghost text = { λ ns. list ns.now };

    fn render<S: Sink>(&self, sink: &mut S) {
        put_list(sink, self);
    }
}

// Writes the line of that key, with the value.
#[tactic(auto, using(crate::proofs::Feeding::feeds))]
fn line<S: Sink, R: Render>(sink: &mut S, key: &[u8], value: &R)
    ensures { Feeds S.takes sink.old (key.now ++ (61 ∷ (R.text value.now ++ (10 ∷ [])))) sink.new }
{
    put_bytes(sink, key);
    put_bytes(sink, b"=");
    value.render(sink);
    put_bytes(sink, b"\n");
}

// Writes a line that has one number.
pub fn number_line<S: Sink>(sink: &mut S, key: &[u8], n: usize)
    ensures { Feeds S.takes sink.old (line_of key.now (n ∷ [])) sink.new }
{
    line(sink, key, &n);
}

// Writes a line that has a list.
pub fn list_line<S: Sink>(sink: &mut S, key: &[u8], ns: &[u16])
    ensures { Feeds S.takes sink.old (line_of key.now ns.now) sink.new }
{
    line(sink, key, &ns);
}

// Writes the values one after another.
#[tactic(auto, using(crate::proofs::Feeding::texts_fed))]
pub fn put_all<S: Sink, R: Render>(sink: &mut S, items: &[R])
    ensures { Feeds S.takes sink.old (each R.text items.now) sink.new }
{
    for item in items {
        item.render(sink);
    }
}

// The length of the text, or the refusal where that is more than the size.
#[tactic(auto, using(crate::proofs::Feeding::room_fed))]
fn measure<R: Render>(size: usize, what: &R) -> Result<usize, Question>
    ensures { Measured (R.text what.now) size result }
{
    let mut room = Room { left: Some(size) };
    what.render(&mut room);
    let left = room.left.ok_or(Question::TextFits)?;
    Ok(size - left)
}

// Writes the text at the start of bytes that are long enough.
#[tactic(auto, using(crate::proofs::Feeding::lent_all))]
fn lay<R: Render>(bytes: &mut [u8], what: &R)
    requires { length (R.text what.now) ≤ length bytes.old }
    ensures { bytes.new ≡ R.text what.now ++ drop (length (R.text what.now)) bytes.old }
{
    let mut lent = Lent { bytes, at: 0 };
    what.render(&mut lent);
}

// Writes the text at the start of the bytes and answers its length; where they are too few, refuses and alters none.
// It renders twice, first to measure, so that a refusal has nothing to undo and no memory is asked for.
pub fn write<R: Render>(bytes: &mut [u8], what: &R) -> Result<usize, Question>
    ensures { Written (R.text what.now) bytes.old bytes.new result }
{
    let count = measure(bytes.len(), what)?;
    lay(bytes, what);
    Ok(count)
}

// What was written at the start of the bytes, if it was.
pub fn written<E: Drop>(answer: Result<usize, E>, bytes: &[u8]) -> Option<&[u8]>
    ensures { option_copied result ≡ written_part answer bytes.now }
{
    answer.ok().and_then(|n| bytes.get(..n))
}
