// What every crate of the engine shares: the questions and the storing routine.
#![tactic(auto)]

mod question;
mod storing;
mod turns;

pub use question::Question;
pub use storing::store;
pub use turns::ask;
