// What is made of a plan for those who use it: the walk along its stops, and the tree of its tasks.
#![tactic(auto)]

mod lister;
#[cfg(test)]
mod tests;
mod tree;
mod walk;

pub use tree::{Node, write_tree};
pub use walk::{Step, Walk};
