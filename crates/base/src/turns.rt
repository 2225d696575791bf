// Questions that are put in their order.
ghost use Rattle.std.specs.Prelude.{◌≡◌, [], ◌∷◌};
ghost use Rattle.base.specs.Asked.{ask as asked, first_no};

// Goes on where the question was answered yes; else the fault is the answer. With `?` after each, questions in turn come to
// the first that was answered no.
pub fn ask<E: Drop>(yes: bool, fault: E) -> Result<(), E>
    ensures { result ≡ first_no (asked yes fault ∷ []) }
{
    if yes { Ok(()) } else { Err(fault) }
}
