// At most 256 facts, kept by the numbers of those that hold.
ghost use Rattle.std.specs.Prelude.{◌≡◌, ◌<◌, ◌≤◌, min, true, false, [], length, replicate, IfOk, Some, vec_capacity, slice_set};
ghost use Rattle.std.specs.List.{slice_get};
ghost use Rattle.state.specs.SparseFacts.{sparse_facts};
ghost use Rattle.std.proofs.Common.{arith};
ghost use Rattle.std.proofs.lemmas.List.FromFn.{length-map-range_with_len};

use crate::State;
use crate::definitions::SparseState;
use base::{Question, ask};
use std::alloc::{AllocError, Global};

impl SparseState {
    // A state in which nothing holds. A size above 256 counts as 256.
    #[tactic(auto, using(crate::proofs::SparseSteps::none_hold))]
    pub fn new(heap: Global, size: u16) -> Result<SparseState, AllocError>
        ensures { IfOk result (λ s. sparse_facts s ≡ replicate (min size 256) false) }
    {
        let held = Vec::with_capacity(heap, 256)?;
        Ok(SparseState {
            size: size.min(256),
            held,
        })
    }

    // Whether the fact holds.
    fn holds(&self, fact: u16) -> bool
        requires { fact < self.now.size }
        ensures { Some result ≡ slice_get (sparse_facts self.now) fact }
    {
        self.held.binary_search(&fact).is_ok()
    }

    // Makes the fact hold. A fact that is missing has room, since no number stands twice.
    fn insert(&mut self, fact: u16)
        requires { fact < self.old.size }
        ensures { sparse_facts self.new ≡ slice_set (sparse_facts self.old) fact true }
    {
        if let Err(place) = self.held.binary_search(&fact) {
            self.held.insert(place, fact).unwrap();
        }
    }

    // Makes the fact not hold.
    fn remove(&mut self, fact: u16)
        requires { fact < self.old.size }
        ensures { sparse_facts self.new ≡ slice_set (sparse_facts self.old) fact false }
    {
        if let Ok(place) = self.held.binary_search(&fact) {
            self.held.remove(place);
        }
    }
}

impl State for SparseState {
    ghost facts = { sparse_facts };

    ghost within = { λ s. simp length-map-range_with_len (omega arith) };

    fn size(&self) -> u16 {
        self.size
    }

    #[tactic(auto, using(crate::proofs::Counts::past_counted))]
    fn get(&self, fact: u16) -> Option<bool> {
        (fact < self.size).then(|| self.holds(fact))
    }

    fn set(&mut self, fact: u16, value: bool) -> Result<(), Question> {
        ask(fact < self.size, Question::FactWithinState)?;
        if value {
            self.insert(fact);
        } else {
            self.remove(fact);
        }
        Ok(())
    }
}
