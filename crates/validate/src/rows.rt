// The rows of a plan in turn, over any state.
ghost use Rattle.std.specs.Prelude.{◌≡◌, ◌≤◌, [], length, take, IfOk};
ghost use Rattle.base.specs.Asked.{first_no};
ghost use Rattle.problem.specs.Loaded.{problem_of};
ghost use Rattle.rules.specs.Places.{after};
ghost use Rattle.validate.specs.Verdicts.{row_asked, following_from};
ghost use Rattle.validate.specs.Stacks.{tasks_of, rows_of, task_asked, place_of, Kept};

use crate::faults::row_fault;
use crate::stack::OpenTasks;
use base::{Question, ask};
use problem::{Problem, Row, RowFault};
use rules::{OpenTask, is_enabled, is_for, is_level, perform, subtasks};
use state::State;

// What stays the same while rows are looked at in turn. Where conditions do not count, no fact matters. A flag, and no state
// that may be missing: of what is lent in an Option a caller knows nothing afterwards.
#[derive(Clone, Copy)]
pub(crate) struct Check<'a> {
    pub(crate) problem: &'a Problem,
    pub(crate) levels: u8,
    pub(crate) conditions: bool,
}

impl Check<'_> {
    // Questions 17, 18 and 19 of the row, at the first open task; 18 only where conditions count. Where they pass,
    // the limit is known to be a byte, so a split task's level can be raised by one.
    fn ask_row<S: State>(
        &self,
        number: usize,
        row: Row,
        state: &S,
        task: OpenTask,
    ) -> Result<(), RowFault>
        ensures answer { result ≡ first_no (task_asked (problem_of self.now.problem.now) self.now.conditions self.now.levels number row (take (problem_of self.now.problem.now).facts (S.facts state.now)) task) }
        ensures byte { IfOk result (λ _. self.now.levels ≤ 255) }
    {
        ask(
            is_for(self.problem, row, task.task),
            row_fault(Question::RowForTask, number),
        )?;
        ask(
            !self.conditions || is_enabled(self.problem, row, state),
            row_fault(Question::ConditionsHold, number),
        )?;
        ask(
            is_level(self.problem, row, self.levels, task),
            row_fault(Question::LevelRight, number),
        )
    }

    // One row: questions 16 to 20, and its work.
    fn check_row<S: State>(
        &self,
        number: usize,
        row: Row,
        state: &mut S,
        todo: &mut OpenTasks,
    ) -> Result<(), RowFault>
        ensures answer { result ≡ first_no (row_asked (problem_of self.now.problem.now) self.now.conditions self.now.levels number (length (rows_of todo.old)) row (place_of (problem_of self.now.problem.now) (S.facts state.old) (tasks_of todo.old))) }
        ensures leads { IfOk result (λ _. place_of (problem_of self.now.problem.now) (S.facts state.new) (tasks_of todo.new) ≡ after (problem_of self.now.problem.now) row (place_of (problem_of self.now.problem.now) (S.facts state.old) (tasks_of todo.old))) }
        ensures kept { Kept (problem_of self.now.problem.now) (S.facts state.old) (S.facts state.new) }
        ensures rows { rows_of todo.new ≡ rows_of todo.old }
    {
        let task = todo
            .take_first()
            .ok_or(row_fault(Question::TaskOpen, number))?;
        self.ask_row(number, row, state, task)?;
        todo.put(subtasks(self.problem, row), task.level.saturating_add(1))
            .map_err(|question| row_fault(question, number))?;
        perform(self.problem, row, state);
        Ok(())
    }

    // The rows in turn: question 20 before the first, and then 16 to 20 of each.
    pub(crate) fn check_rows<S: State>(
        &self,
        state: &mut S,
        mut todo: OpenTasks,
    ) -> Result<(), RowFault>
        requires none { tasks_of todo ≡ [] }
        ensures answer { result ≡ first_no (following_from (problem_of self.now.problem.now) self.now.conditions self.now.levels (rows_of todo.entry) (take (problem_of self.now.problem.now).facts (S.facts state.old))) }
        ensures kept { Kept (problem_of self.now.problem.now) (S.facts state.old) (S.facts state.new) }
    {
        let count = todo.rows.len();
        todo.put(self.problem.first.as_slice(), 1)?;
        while let Some(row) = todo.rows.next() {
            // the row's number follows from how many are left after it
            self.check_row(count - todo.rows.len(), *row, state, &mut todo)?;
        }
        Ok(())
    }
}
