// What validation and search share beside a problem.

// A task that is still to be done, and the level at which it lies: 1 for the first tasks, one more for each split.
#[derive(Clone, Copy, Debug)]
pub struct OpenTask {
    pub task: u16,
    pub level: u8,
}

// The greatest level of a task, and the greatest number of rows.
#[derive(Clone, Copy, Debug)]
pub struct Limits {
    pub levels: u8,
    pub rows: u16,
}

// The greatest limits, so that any solution within them passes.
pub const WIDEST: Limits = Limits {
    levels: 32,
    rows: 2000,
};
