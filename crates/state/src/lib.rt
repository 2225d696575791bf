// States: which facts hold. Every state is used through the same three calls.
#![tactic(auto)]

ghost use Rattle.std.specs.Prelude.{◌≡◌, ◌≤◌, Bool, List, length, slice_set};
ghost use Rattle.std.specs.List.{slice_get};
ghost use Rattle.state.specs.Facts.{answered};

use base::Question;

mod bits;
mod concatenated;
mod definitions;
mod negated;
mod sparse;

pub use concatenated::Concatenated;
pub use definitions::{BitState, SparseState};
pub use negated::Negated;

pub trait State {
    // What the state means: for each fact below its size whether it holds.
    ghost facts: { Self → List Bool };

    fn size(&self) -> u16
        ensures { result ≡ length (facts self.now) };

    // Whether the fact holds; none where it is not below the size.
    fn get(&self, fact: u16) -> Option<bool>
        ensures { result ≡ slice_get (facts self.now) fact };

    // A fact that is not below the size is refused, and changes nothing.
    fn set(&mut self, fact: u16, value: bool) -> Result<(), Question>
        ensures after { facts self.new ≡ slice_set (facts self.old) fact value }
        ensures value { result ≡ answered (length (facts self.old)) fact };

    ghost within: { (s : Self) → length (facts s) ≤ 65535 };
}
