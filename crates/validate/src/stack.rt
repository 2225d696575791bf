// The tasks that are open, on a stack, and the rows that are left for them.
ghost use Rattle.std.specs.Prelude.{◌≤◌, length, vec_len};
ghost use Rattle.std.specs.Slice.Iter.{iter_rest};

use base::{Question, ask, store};
use problem::Row;
use rules::OpenTask;
use std::alloc::{AllocError, Global};
use std::slice::Iter;

// The first `used` entries, the last of them the first open task; what stands behind them means nothing. Each row that is
// left can do one task, so there is room for as many. The entries are stored by the one routine, which takes a place, so
// that the count stands beside them.
#[derive(Drop)]
pub(crate) struct OpenTasks<'a> {
    pub(crate) rows: Iter<'a, Row>,
    entries: Vec<OpenTask>,
    used: usize,
    ghost within: { used ≤ vec_len entries },
    ghost room: { length (iter_rest rows) ≤ vec_len entries },
}

impl<'a> OpenTasks<'a> {
    ghost use Rattle.std.specs.Prelude.{◌≡◌, [], ◌∷◌, ◌++◌, nat_le, IfOk, MatchOption};
    ghost use Rattle.base.specs.Asked.{ask, first_no};
    ghost use Rattle.base.specs.declared.question.Question.TheVariants.{OpenWithinRows};
    ghost use Rattle.rules.specs.Places.{at_level};
    ghost use Rattle.validate.specs.Stacks.{tasks_of, rows_of};

    // No task is open, and all rows are left.
    pub(crate) fn new(heap: Global, rows: &'a [Row]) -> Result<OpenTasks<'a>, AllocError>
        ensures { IfOk result (λ todo. (tasks_of todo ≡ []) × (rows_of todo ≡ rows.now)) }
    {
        let entries = vec![in heap; OpenTask { task: 0, level: 0 }; rows.len()]?;
        Ok(OpenTasks {
            rows: rows.iter(),
            entries,
            used: 0,
        })
    }

    // Takes the first open task away; none where no task is open.
    pub(crate) fn take_first(&mut self) -> Option<OpenTask>
        ensures taken { MatchOption result (tasks_of self.old ≡ []) (λ t. tasks_of self.old ≡ t ∷ tasks_of self.new) }
        ensures rows { rows_of self.new ≡ rows_of self.old }
    {
        self.used = self.used.checked_sub(1)?;
        Some(self.entries[self.used])
    }

    // Question 20: puts the tasks before those that are open, the first of them to come first, where as many rows are left.
    #[tactic(auto, using(crate::proofs::Stacking::open_long, crate::proofs::Stacking::tasks_long))]
    pub(crate) fn put(&mut self, tasks: &[u16], level: u8) -> Result<(), Question>
        ensures answer { result ≡ first_no (ask (nat_le (length (at_level level tasks.now ++ tasks_of self.old)) (length (rows_of self.old))) OpenWithinRows ∷ []) }
        ensures opened { IfOk result (λ _. tasks_of self.new ≡ at_level level tasks.now ++ tasks_of self.old) }
        ensures rows { rows_of self.new ≡ rows_of self.old }
    {
        ask(
            tasks.len() + self.used <= self.rows.len(),
            Question::OpenWithinRows,
        )?;
        for task in tasks.iter().rev() {
            let _ = store(
                self.entries.as_mut_slice(),
                self.used,
                OpenTask { task: *task, level },
            );
            self.used += 1;
        }
        Ok(())
    }
}
