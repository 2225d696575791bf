// Two states one after the other.
ghost use Rattle.std.specs.Prelude.{◌≡◌, ◌+◌, min, ◌++◌, take};
ghost use Rattle.std.proofs.Common.{length-take, arith};
ghost use Rattle.state.specs.WrappedFacts.{concatenated_facts, place_of};

use crate::State;
use base::Question;

// The facts of the first state and then those of the second, as far as their number is below 65,535.
#[derive(Drop)]
pub struct Concatenated<F, S> {
    pub first: F,
    pub second: S,
}

impl<F: State, S: State> Concatenated<F, S> {
    // Both states as they stand.
    pub fn new(first: F, second: S) -> Concatenated<F, S>
        ensures means { concatenated_facts F.State.facts S.State.facts result ≡ take 65535 (F.State.facts first ++ S.State.facts second) }
        ensures keeps { (result.first ≡ first) × (result.second ≡ second) }
    {
        Concatenated { first, second }
    }
}

// Where a fact stands: in the first state or the second, with its number there.
#[derive(Clone, Copy)]
enum Place {
    First(u16),
    Second(u16),
}

// The place of a fact, where the first state has `split` facts; none where it stands in neither.
fn place_of(split: u16, fact: u16) -> Option<Place>
    ensures { result ≡ place_of split fact }
{
    if fact < split {
        Some(Place::First(fact))
    } else if fact < u16::MAX {
        Some(Place::Second(fact - split))
    } else {
        None
    }
}

// A size is a u16, so the facts past 65,535 are cut off. Within `size` its goal stayed open.
fn total_size(first: u16, second: u16) -> u16
    ensures { result ≡ min (first + second) 65535 }
{
    first.saturating_add(second)
}

impl<F: State, S: State> State for Concatenated<F, S> {
    ghost facts = { concatenated_facts F.State.facts S.State.facts };

    ghost within = { λ s. simp length-take (omega arith) };

    fn size(&self) -> u16 {
        total_size(self.first.size(), self.second.size())
    }

    fn get(&self, fact: u16) -> Option<bool> {
        match place_of(self.first.size(), fact)? {
            Place::First(fact) => self.first.get(fact),
            Place::Second(fact) => self.second.get(fact),
        }
    }

    fn set(&mut self, fact: u16, value: bool) -> Result<(), Question> {
        let place = place_of(self.first.size(), fact).ok_or(Question::FactWithinState)?;
        match place {
            Place::First(fact) => self.first.set(fact, value),
            Place::Second(fact) => self.second.set(fact, value),
        }
    }
}
