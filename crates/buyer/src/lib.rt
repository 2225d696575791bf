// A state as a buyer would make one: used through the same calls as the engine's own, with a log beside it.
#![tactic(auto)]

mod definition;
mod logged;
#[cfg(test)]
mod tests;

pub use definition::{Change, LoggedState};
