// The value reader: one byte after another, with nothing kept of the line.
ghost use Rattle.std.specs.Prelude.{◌≡◌, ◌+◌, ◌^◌, ◌-◌, ◌<◌, ◌≤◌, length, IfOk};
ghost use Rattle.text.specs.Fed.{Fed};
ghost use Rattle.text.specs.Values.{value as value_at, numbers_of};
ghost use Rattle.text.specs.Steps.{stepped, ValueRead};

use crate::numbers::Numbers;
use crate::place::Numbered;

// What the next byte of a value meets: a number is due, or the value may end here if the flag says so; or a number has begun.
#[derive(Clone, Copy)]
pub(crate) enum Before {
    Due(bool),
    Figures(Numbered),
}

// What a byte does to a value that it belongs to: it goes on; a number is complete and another is due; or the value ends,
// with a number or with none.
#[derive(Clone, Copy)]
pub(crate) enum Step {
    On(Before),
    Put(Numbered),
    Last(Numbered),
    Empty,
}

// The number that the digit `c` writes. `to_digit` would answer an Option where `c` is known to be one.
fn figure(c: char) -> u16
    requires from_0 { 48 ≤ c }
    requires to_9 { c ≤ 57 }
    ensures { result ≡ c - 48 }
{
    (c as u32 - '0' as u32) as u16
}

// What the byte `c`, which stands at `at`, does to a value, or None where no value goes on with it. `many` stands in the
// definitions too: a reader for each kind of value would be the same code twice.
fn take_byte(many: bool, before: Before, at: usize, c: char) -> Option<Step>
    requires { c < 256 }
    ensures { result ≡ stepped many before at c }
{
    let step = match before {
        Before::Due(may) => match c {
            '0'..='9' => Step::On(Before::Figures(Numbered {
                value: figure(c),
                byte: at,
            })),
            '\n' if may => Step::Empty,
            _ => return None,
        },
        Before::Figures(n) => match c {
            '0'..='9' if n.value > 0 => {
                let value = n.value.checked_mul(10)?.checked_add(figure(c))?;
                Step::On(Before::Figures(Numbered {
                    value,
                    byte: n.byte,
                }))
            }
            ',' if many => Step::Put(n),
            '\n' => Step::Last(n),
            _ => return None,
        },
    };
    Some(step)
}

// Hands on the numbers of the value that begins at the byte `from` with these bytes, and answers where its line ends and
// what is left after it, or the first byte after which no value is possible.
pub(crate) fn value<'a, V: Numbers>(
    bytes: &'a [u8],
    from: usize,
    many: bool,
    out: &mut V,
) -> Result<(usize, &'a [u8]), usize>
    requires { from + length bytes.now < 2 ^ 64 }
    ensures reads { ValueRead (value_at many from bytes.now) result }
    ensures fed { Fed V.Numbers.takes out.old (numbers_of (value_at many from bytes.now)) out.new }
    ensures within { IfOk result (λ met. (from ≤ met.0) × (met.0 + 1 + length met.1.now ≤ from + length bytes.now)) }
{
    let mut before = Before::Due(many);
    for (i, c) in bytes.iter().enumerate() {
        match take_byte(many, before, from + i, *c as char).ok_or(from + i)? {
            Step::On(next) => before = next,
            Step::Put(n) => {
                out.put(n);
                before = Before::Due(false);
            }
            Step::Last(n) => {
                out.put(n);
                return Ok((from + i, &bytes[i + 1..]));
            }
            Step::Empty => return Ok((from + i, &bytes[i + 1..])),
        }
    }
    Err(from + bytes.len())
}
