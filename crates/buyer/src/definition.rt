// The state that keeps a log.
ghost use Rattle.std.specs.Prelude.{◌≤◌, vec_len};

// A change that was accepted.
#[derive(Clone, Copy, PartialEq, Eq, Debug)]
pub struct Change {
    pub fact: u16,
    pub value: bool,
}

// A cell for each fact, the changes in order, and how many found no memory for their entry.
#[derive(Drop)]
pub struct LoggedState {
    pub(crate) facts: Vec<bool>,
    pub(crate) log: Vec<Change>,
    pub(crate) lost: u32,
    ghost small: { vec_len facts ≤ 65535 },
}
