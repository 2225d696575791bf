// 256 facts in four words.
ghost use Rattle.std.specs.Prelude.{◌≡◌, ◌<◌, false, length, replicate, Some, slice_set};
ghost use Rattle.std.specs.List.{slice_get};
ghost use Rattle.state.specs.BitFacts.{bit_facts};
ghost use Rattle.std.proofs.Common.{arith};
ghost use Rattle.std.proofs.lemmas.List.FromFn.{length-map-range_with_len};

use crate::State;
use crate::definitions::BitState;
use base::{Question, ask};

impl BitState {
    // A state in which nothing holds.
    pub fn new() -> BitState
        ensures { bit_facts result ≡ replicate 256 false }
    {
        BitState { words: [0; 4] }
    }

    // Whether the fact holds.
    fn bit(&self, fact: u16) -> bool
        requires { fact < length (bit_facts self.now) }
        ensures { Some result ≡ slice_get (bit_facts self.now) fact }
    {
        let word = self.words[(fact / 64) as usize];
        (word >> (fact % 64)) & 1 == 1
    }

    // Makes the fact hold or not, and leaves every other bit.
    fn set_bit(&mut self, fact: u16, value: bool)
        requires { fact < length (bit_facts self.old) }
        ensures { bit_facts self.new ≡ slice_set (bit_facts self.old) fact value }
    {
        let place = (fact / 64) as usize;
        let bit = 1u64 << (fact % 64);
        if value {
            self.words[place] |= bit;
        } else {
            self.words[place] &= !bit;
        }
    }
}

impl State for BitState {
    ghost facts = { bit_facts };

    ghost within = { λ s. simp length-map-range_with_len (omega arith) };

    fn size(&self) -> u16 {
        256
    }

    #[tactic(auto, using(std::proofs::lemmas::Option::slice_get_past))]
    fn get(&self, fact: u16) -> Option<bool> {
        (fact < self.size()).then(|| self.bit(fact))
    }

    #[tactic(auto, using(std::proofs::lemmas::List::set_past))]
    fn set(&mut self, fact: u16, value: bool) -> Result<(), Question> {
        ask(fact < self.size(), Question::FactWithinState)?;
        self.set_bit(fact, value);
        Ok(())
    }
}
