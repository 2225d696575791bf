// What a row does: task kinds, conditions, effects and levels, over any state.
#![tactic(auto)]

mod asking;
mod entries;
mod facts;
mod kinds;
mod numbered;

pub use asking::{is_enabled, is_level, subtasks};
pub use entries::{Limits, OpenTask, WIDEST};
pub use facts::{conditions_hold, perform, put_start};
pub use kinds::{TaskKind, is_for, task_kind};
