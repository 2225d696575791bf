// A state of no facts, for what is asked of a plan whatever facts hold.
ghost use Rattle.std.specs.Prelude.{[]};
ghost use Rattle.std.proofs.Common.{rules};

use base::Question;
use state::State;

#[derive(Drop)]
pub(crate) struct NoFacts {}

impl State for NoFacts {
    ghost facts = { λ _. [] };

    ghost within = { Prim.search rules };

    fn size(&self) -> u16 {
        0
    }

    fn get(&self, _fact: u16) -> Option<bool> {
        None
    }

    fn set(&mut self, _fact: u16, _value: bool) -> Result<(), Question> {
        Err(Question::FactWithinState)
    }
}
