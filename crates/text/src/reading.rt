// Reads a text line by line.
ghost use Rattle.std.specs.Prelude.{◌≡◌, true, false, is_some, Some};
ghost use Rattle.std.specs.Option.{option_copied};
ghost use Rattle.text.specs.Lines.{ends as ends_in, after, numbers_in, place_of, text_fault};
ghost use Rattle.text.specs.Cursors.{left, at_end, Opens, KeyedRead, LineRead, NumberRead};
ghost use Rattle.text.specs.Fed.{Fed};
ghost use Rattle.text.specs.Viability.{StopsAt};

use crate::cursor::Reader;
use crate::numbers::Numbers;
use crate::place::{Numbered, Place, TextFault};
use crate::values::value;
use base::{Question, ask};

// Whether a line ends in the text.
fn ends(text: &[u8]) -> bool
    ensures { result ≡ ends_in text.now }
{
    text.contains(&b'\n')
}

// What stands after the key and '=', if the text begins with them.
fn value_bytes<'a>(text: &'a [u8], key: &[u8]) -> Option<&'a [u8]>
    ensures { option_copied result ≡ after key.now text.now }
{
    let (c, bytes) = text.strip_prefix(key)?.split_first()?;
    match *c as char {
        '=' => Some(bytes),
        _ => None,
    }
}

// Keeps the last number that was handed on.
impl Numbers for Option<Numbered> {
    ghost takes = { λ s x t. t ≡ Some x };

    fn put(&mut self, n: Numbered) {
        *self = Some(n);
    }
}

impl<'a> Reader<'a> {
    // Stands at the first line of the text.
    pub fn new(text: &'a [u8]) -> Reader<'a>
        ensures start { (result.line ≡ 1) × (result.byte ≡ 0) }
        ensures text { left result ≡ text.now }
    {
        Reader {
            rest: text,
            line: 1,
            byte: 0,
        }
    }

    // Where the next line is due.
    pub fn place(&self) -> Place
        ensures { result ≡ place_of self.now.line self.now.byte }
    {
        Place {
            line: self.line,
            byte: self.byte,
        }
    }

    // Whether the text ends here.
    pub fn is_done(&self) -> bool
        ensures { result ≡ at_end self.now }
    {
        self.rest.is_empty()
    }

    // Whether the key and '=' stand here.
    pub fn begins(&self, key: &[u8]) -> bool
        ensures { result ≡ is_some (after key.now (left self.now)) }
    {
        value_bytes(self.rest, key).is_some()
    }

    // The fault of a question about the line that is due.
    fn fault(&self, question: Question) -> TextFault
        ensures { result ≡ text_fault question self.now.line self.now.byte }
    {
        TextFault {
            question,
            place: self.place(),
        }
    }

    // Questions 1 and 2: where the value begins that stands after the key, and the bytes from there on.
    fn open(&self, key: &[u8]) -> Result<(usize, &'a [u8]), TextFault>
        ensures { Opens key.now self.now result }
    {
        ask(ends(self.rest), self.fault(Question::LineEnds))?;
        let bytes = value_bytes(self.rest, key).ok_or(self.fault(Question::KeyDue))?;
        Ok((self.byte + key.len() + 1, bytes))
    }

    // Hands on the numbers of the line that is due here, and stands where the next is due. The line has a list, or
    // one number where `many` is false.
    fn read<V: Numbers>(&mut self, key: &[u8], many: bool, out: &mut V) -> Result<(), TextFault>
        ensures reads { KeyedRead many key.now self.old result self.new }
        ensures fed { Fed V.Numbers.takes out.old (numbers_in many key.now self.old.byte (left self.old)) out.new }
    {
        let (from, bytes) = self.open(key)?;
        let (end, rest) = value(bytes, from, many, out).map_err(|byte| TextFault {
            question: Question::ValueFormed,
            place: Place {
                line: self.line,
                byte,
            },
        })?;
        *self = Reader {
            rest,
            line: self.line + 1,
            byte: end + 1,
        };
        Ok(())
    }

    // Hands on the numbers of the list on the line that is due here, after which the next line is due.
    pub fn list<V: Numbers>(&mut self, key: &[u8], out: &mut V) -> Result<(), TextFault>
        ensures reads { LineRead key.now self.old result self.new }
        ensures fed { Fed V.Numbers.takes out.old (numbers_in true key.now self.old.byte (left self.old)) out.new }
        ensures stops { StopsAt true key.now self.old.byte (left self.old) result }
    {
        self.read(key, true, out)
    }

    // The number on the line that is due here, after which the next line is due.
    pub fn number(&mut self, key: &[u8]) -> Result<Numbered, TextFault>
        ensures reads { NumberRead key.now self.old result self.new }
        ensures stops { StopsAt false key.now self.old.byte (left self.old) result }
    {
        let mut lone: Option<Numbered> = None;
        self.read(key, false, &mut lone)?;
        Ok(lone.unwrap())
    }
}
