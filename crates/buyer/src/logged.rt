// Facts in cells, and a log of their changes.
ghost use Rattle.std.specs.Prelude.{◌≡◌, false, [], length, replicate, IfOk, slice_set};
ghost use Rattle.state.specs.Facts.{answered};
ghost use Rattle.buyer.specs.Logged.{logged_facts, Logged, Noted};
ghost use Rattle.std.proofs.Common.{arith};

use crate::definition::{Change, LoggedState};
use base::{Question, ask};
use state::State;
use std::alloc::{AllocError, Global};

impl LoggedState {
    // A state in which nothing holds, with an empty log.
    pub fn new(heap: Global, size: u16) -> Result<LoggedState, AllocError>
        ensures facts { IfOk result (λ s. logged_facts s ≡ replicate size false) }
        ensures log { IfOk result (λ s. (s.log.items ≡ []) × (s.lost ≡ 0)) }
    {
        let facts = vec![in heap; false; size as usize]?;
        Ok(LoggedState {
            facts,
            log: Vec::new(heap),
            lost: 0,
        })
    }

    // The changes that have an entry, in the order in which they were made.
    pub fn log(&self) -> &[Change]
        ensures { result.now ≡ self.now.log.items }
    {
        self.log.as_slice()
    }

    // How many changes have no entry in the log.
    pub fn lost(&self) -> u32
        ensures { result ≡ self.now.lost }
    {
        self.lost
    }

    // A change stands even where its entry finds no memory.
    fn note(&mut self, change: Change)
        ensures facts { logged_facts self.new ≡ logged_facts self.old }
        ensures log { Noted change self.old self.new }
    {
        if self.log.push(change).is_err() {
            self.lost = self.lost.saturating_add(1);
        }
    }
}

impl State for LoggedState {
    ghost facts = { logged_facts };

    ghost within = { λ s. omega arith };

    // The cast loses nothing, by the ghost field.
    fn size(&self) -> u16 {
        self.facts.len() as u16
    }

    fn get(&self, fact: u16) -> Option<bool> {
        self.facts.get(fact as usize).copied()
    }

    fn set(&mut self, fact: u16, value: bool) -> Result<(), Question>
        ensures after { logged_facts self.new ≡ slice_set (logged_facts self.old) fact value }
        ensures value { result ≡ answered (length (logged_facts self.old)) fact }
        ensures log { Logged (record { fact = fact; value = value }) self.old result self.new }
    {
        ask(fact < self.size(), Question::FactWithinState)?;
        self.facts[fact as usize] = value;
        self.note(Change { fact, value });
        Ok(())
    }
}
