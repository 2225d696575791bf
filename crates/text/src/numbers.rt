// Who is handed the numbers of a value.
ghost use Rattle.text.specs.declared.place.Numbered.{Numbered};

use crate::place::Numbered;

// Each number is handed on as soon as it is complete, so that a long line costs no memory. A trait and no closure: after a
// call nothing is known of what a closure borrowed and changed.
pub trait Numbers {
    // The collector before, the number that it took, and the collector after.
    ghost takes: { Self → Numbered → Self → Type 0 };

    fn put(&mut self, n: Numbered)
        ensures { takes self.old n self.new };
}
