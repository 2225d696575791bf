// The one routine that stores an entry.
ghost use Rattle.std.specs.Prelude.{◌≡◌, length, slice_set};
ghost use Rattle.base.specs.Stored.{stored};

use crate::question::Question;
use crate::turns::ask;

// Puts the entry at the place, or refuses where the slice has no such place and leaves it as it was.
pub fn store<T: Drop>(entries: &mut [T], place: usize, entry: T) -> Result<(), Question>
    ensures after { entries.new ≡ slice_set entries.old place entry }
    ensures value { result ≡ stored (length entries.old) place }
{
    ask(place < entries.len(), Question::SliceLongEnough)?;
    entries[place] = entry;
    Ok(())
}
