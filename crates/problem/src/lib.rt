// Ground total-order planning problems and plans as texts: loaded, and written back.
#![tactic(auto)]

mod definition;
mod entries;
mod faults;
mod lines;
mod listing;
mod loader;
mod loading;
mod plan_writing;
mod plans;
mod reports;
mod rule;
mod writing;

pub use definition::Problem;
pub use entries::{Method, Operator, Row};
pub use faults::{LoadFault, PlanFault, ProblemFault, Refusal, RowFault};
pub use listing::Listing;
pub use writing::LONGEST;
