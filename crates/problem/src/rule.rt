// What the numbers of a list have to be, and what is kept of them while a line is read.
ghost use Rattle.std.specs.Prelude.{◌≤◌, vec_capacity};

// Each from `low` up to but not with `end`, at most `most` of them, and ascending where that is asked.
#[derive(Clone, Copy)]
pub(crate) struct Rule {
    pub(crate) low: usize,
    pub(crate) end: usize,
    pub(crate) most: usize,
    pub(crate) ascending: bool,
}

// The first numbers of a line, no more than the rule allows, and the bytes of the first number out of range,
// of the first too many, and of the first that is not above the one before it.
#[derive(Drop)]
pub(crate) struct Entries {
    pub(crate) rule: Rule,
    pub(crate) numbers: Vec<u16>,
    pub(crate) outside: Option<usize>,
    pub(crate) excess: Option<usize>,
    pub(crate) descent: Option<usize>,
    pub(crate) last: Option<u16>,
    ghost room: { rule.most ≤ vec_capacity numbers },
}
