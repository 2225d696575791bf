// Reads a text line by line: numbers, lists, and blocks of lines that stand in it several times in turn.
ghost use Rattle.std.specs.Prelude.{◌≡◌, vec_items, is_some};
ghost use Rattle.text.specs.Cursors.{left};
ghost use Rattle.text.specs.Lines.{after};
ghost use Rattle.problem.specs.Formats.{a_list, a_number, ranged as ranged_by};
ghost use Rattle.problem.specs.Heads.{Finishes};
ghost use Rattle.problem.specs.Reads.{from, Reads, Judged, Calls, InTurn, same, Starts};

use crate::faults::{LoadFault, Refusal};
use crate::rule::{Entries, Rule};
use base::{Question, ask};
use std::alloc::Global;
use std::marker::PhantomData;
use text::{Place, Reader};

// Stands where the next line is due. What goes wrong is told as the fault of a `W`.
#[derive(Drop)]
pub(crate) struct Loader<'a, W> {
    reader: Reader<'a>,
    heap: Global,
    of: PhantomData<W>,
}

// Question 4 of one number: is it from `low` up to but not with `end`?
pub(crate) fn ranged(n: u16, low: usize, end: usize) -> Option<Question>
    ensures { result ≡ ranged_by low end n }
{
    (!(low..end).contains(&usize::from(n))).then_some(Question::NumberInRange)
}

impl<'a, W> Loader<'a, W> {
    pub(crate) fn new(heap: Global, text: &'a [u8]) -> Loader<'a, W>
        ensures { Starts text.now result.reader }
    {
        Loader {
            reader: Reader::new(text),
            heap,
            of: PhantomData,
        }
    }

    // Whether the key and '=' stand here.
    pub(crate) fn begins(&self, key: &[u8]) -> bool
        ensures { result ≡ is_some (after key.now (left self.now.reader)) }
    {
        self.reader.begins(key)
    }

    // The list on the line that is due here.
    pub(crate) fn list(&mut self, key: &[u8], rule: Rule) -> Result<Vec<u16>, LoadFault<W>>
        ensures { Reads (from (a_list key.now rule) self.old.reader) vec_items result self.new.reader }
    {
        let line = self.reader.place().line;
        let mut entries = Entries::new(self.heap, rule)?;
        self.reader.list(key, &mut entries)?;
        let numbers = entries.finish(line)?;
        Ok(numbers)
    }

    // The number on the line that is due here, of which the judge names the first question that it fails.
    pub(crate) fn judged<J: Fn(u16) -> Option<Question>>(
        &mut self,
        key: &[u8],
        judge: J,
    ) -> Result<u16, LoadFault<W>>
        requires { J.IsAlwaysCallable judge }
        ensures { Judged (J.post judge) key.now self.old.reader result self.new.reader }
    {
        let line = self.reader.place().line;
        let n = self.reader.number(key)?;
        let place = Place { line, byte: n.byte };
        judge(n.value).map_or(Ok(n.value), |question| {
            Err(Refusal { question, place }.into())
        })
    }

    // The number on the line that is due here, from `low` up to but not with `end`.
    pub(crate) fn number(&mut self, key: &[u8], low: usize, end: usize) -> Result<u16, LoadFault<W>>
        ensures { Reads (from (a_number key.now (ranged_by low end)) self.old.reader) same result self.new.reader }
    {
        self.judged(key, |n| ranged(n, low, end))
    }

    // As many blocks as are due, one after another. A `for`, since a `collect` into a Result does not promise where it fails.
    pub(crate) fn times<T: Drop, R: Fn(&mut Loader<'a, W>) -> Result<T, LoadFault<W>>>(
        &mut self,
        n: u16,
        read: R,
    ) -> Result<Vec<T>, LoadFault<W>>
        requires { R.IsAlwaysCallable read }
        ensures { InTurn (Calls (R.post read)) n self.old result self.new }
    {
        let mut all = Vec::with_capacity(self.heap, usize::from(n))?;
        for _i in 0..n {
            all.push(read(self)?)?;
        }
        Ok(all)
    }

    // Refuses bytes after the last line.
    pub(crate) fn finish(&self) -> Result<(), Refusal>
        ensures { Finishes self.now.reader result }
    {
        ask(
            self.reader.is_done(),
            Refusal {
                question: Question::FileEnds,
                place: self.reader.place(),
            },
        )
    }
}
