// The negation of any state.
ghost use Rattle.std.specs.Prelude.{◌≡◌, not, map, length, slice_set};
ghost use Rattle.std.proofs.lemmas.List.{length-map};
ghost use Rattle.std.specs.List.{slice_get};
ghost use Rattle.state.specs.Facts.{answered};
ghost use Rattle.state.specs.WrappedFacts.{negated_facts};

use crate::State;
use base::Question;

// Holds a fact exactly where the state below does not.
#[derive(Drop)]
pub struct Negated<S> {
    pub below: S,
}

impl<S: State> Negated<S> {
    // The negation of the state as it stands.
    pub fn new(below: S) -> Negated<S>
        ensures means { negated_facts S.State.facts result ≡ map not (S.State.facts below) }
        ensures keeps { result.below ≡ below }
    {
        Negated { below }
    }
}

impl<S: State> State for Negated<S> {
    ghost facts = { negated_facts S.State.facts };

    ghost within = { λ s. simp length-map (S.State.within s.below) };

    fn size(&self) -> u16 {
        self.below.size()
    }

    fn get(&self, fact: u16) -> Option<bool> {
        self.below.get(fact).map(|holds| !holds)
    }

    #[tactic(auto, using(crate::proofs::Places::negated_set))]
    fn set(&mut self, fact: u16, value: bool) -> Result<(), Question> {
        self.below.set(fact, !value)
    }
}
