// Validation: whether a plan is a solution of a problem. It uses nothing of a search.
#![tactic(auto)]

mod decomposition;
mod faults;
mod limits;
mod nothing;
mod reports;
mod rows;
mod stack;
mod validation;

pub use decomposition::check_decomposition;
pub use faults::Fault;
pub use limits::check_plan;
pub use reports::write_verdict;
pub use validation::validate;
