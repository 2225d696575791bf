// A problem, which always keeps its limits.
ghost use Rattle.std.specs.Prelude.{◌≡◌, true};
ghost use Rattle.problem.specs.Data.{data_of};
ghost use Rattle.problem.specs.Legal.{legal as legal_data};

use crate::entries::{Method, Operator};

// The operators are the tasks from 0 on, and `tasks` compound ones follow. No model: contracts and code above read the parts
// by name, and `problem_of` is what they mean together.
#[derive(Drop)]
pub struct Problem {
    pub number: u16,
    pub facts: u16,
    pub tasks: u16,
    pub start: Vec<u16>,
    pub first: Vec<u16>,
    pub operators: Vec<Operator>,
    pub methods: Vec<Method>,
    ghost legal: { legal_data (data_of number facts tasks start first operators methods) ≡ true },
}
