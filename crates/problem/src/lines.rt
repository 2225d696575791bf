// Asks questions 4 to 6 of the numbers of a line while they come.
ghost use Rattle.std.specs.Prelude.{◌≡◌, IfOk};
ghost use Rattle.problem.specs.Formats.{above as above_of};
ghost use Rattle.problem.specs.Entered.{noted as noted_of, Fresh, Enters, Judges, Refuses};

use crate::faults::Refusal;
use crate::rule::{Entries, Rule};
use base::Question;
use std::alloc::{AllocError, Global};
use text::{Numbered, Numbers, Place};

fn above(last: Option<u16>, n: u16) -> bool
    ensures { result ≡ above_of last n }
{
    last.is_none_or(|m| m < n)
}

// Keeps the byte that was noted first; the byte at hand is noted where the number there fails.
fn noted(before: Option<usize>, passes: bool, byte: usize) -> Option<usize>
    ensures { result ≡ noted_of before passes byte }
{
    before.or((!passes).then_some(byte))
}

// Refuses the line at the byte that was noted, if there is one.
fn refuse(question: Question, line: usize, noted: Option<usize>) -> Result<(), Refusal>
    ensures { Refuses question line noted result }
{
    noted.map_or(Ok(()), |byte| {
        Err(Refusal {
            question,
            place: Place { line, byte },
        })
    })
}

impl Numbers for Entries {
    ghost takes = { Enters };

    fn put(&mut self, n: Numbered) {
        self.outside = noted(
            self.outside,
            (self.rule.low..self.rule.end).contains(&usize::from(n.value)),
            n.byte,
        );
        self.descent = noted(self.descent, above(self.last, n.value), n.byte);
        self.last = Some(n.value);
        let fits = self.numbers.len() < self.rule.most;
        self.excess = noted(self.excess, fits, n.byte);
        if fits {
            self.numbers.push_reserved(n.value);
        }
    }
}

impl Entries {
    // Nothing is kept yet; there is room for as many numbers as the rule allows.
    pub(crate) fn new(heap: Global, rule: Rule) -> Result<Entries, AllocError>
        ensures { IfOk result (Fresh rule) }
    {
        let numbers = Vec::with_capacity(heap, rule.most)?;
        Ok(Entries {
            rule,
            numbers,
            outside: None,
            excess: None,
            descent: None,
            last: None,
        })
    }

    // The numbers of the line, or the first of questions 4, 5 and 6 that it fails.
    pub(crate) fn finish(self, line: usize) -> Result<Vec<u16>, Refusal>
        ensures { Judges self line result }
    {
        let Entries {
            rule,
            numbers,
            outside,
            excess,
            descent,
            last: _,
        } = self;
        refuse(Question::NumberInRange, line, outside)?;
        refuse(Question::ListWithinLength, line, excess)?;
        refuse(
            Question::ListAscends,
            line,
            descent.filter(|_| rule.ascending),
        )?;
        Ok(numbers)
    }
}
