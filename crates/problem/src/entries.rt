// What a problem is made of.

// A single stop: where it is, when it may be made, and which facts it sets and clears.
#[derive(Drop)]
pub struct Operator {
    pub shelf: u16,
    pub yes: Vec<u16>,
    pub no: Vec<u16>,
    pub add: Vec<u16>,
    pub del: Vec<u16>,
}

// A way to split a compound task: which task, when it may be used, and the tasks that take its place.
#[derive(Drop)]
pub struct Method {
    pub task: u16,
    pub yes: Vec<u16>,
    pub no: Vec<u16>,
    pub sub: Vec<u16>,
}

// A row of a plan: the first open task is split by a method, or done as an operator.
#[derive(Clone, Copy, Debug, PartialEq)]
pub enum Row {
    By(u16),
    Do(u16),
}
