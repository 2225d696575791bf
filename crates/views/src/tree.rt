// The tree of a plan: how its rows decompose the problem's first tasks.
ghost use Rattle.std.specs.Prelude.{◌≡◌, ◌+◌, ◌≤◌, List, ◌∷◌, ◌++◌, length, IfOk, OnOk};
ghost use Rattle.problem.specs.Loaded.{problem_of};
ghost use Rattle.validate.specs.Judged.{Answers};
ghost use Rattle.validate.specs.Verdicts.{plan_asked};
ghost use Rattle.views.specs.Lines.{nodes_at, tree_lines};
ghost use Rattle.views.specs.Listers.{rows_left, listed};
ghost use Rattle.views.specs.Trees.{node_text, tree_text, tree_asked, Leaves, Tree};

use crate::lister::Lister;
use problem::{Listing, Problem, Row};
use rules::subtasks;
use std::alloc::{AllocError, Global};
use text::{Render, Sink, list_line, write};
use validate::{Fault, check_decomposition};

// A line of the tree: the row whose subtask this is (0 for none, as the text has it), the level, and the task.
#[derive(Clone, Copy, Debug)]
pub struct Node {
    pub parent: u16,
    pub level: u16,
    pub task: u16,
}

impl Render for Node {
    ghost text = { node_text };

    fn render<S: Sink>(&self, sink: &mut S) {
        list_line(sink, b"node", &[self.parent, self.level, self.task]);
    }
}

impl<'a> Lister<'a> {
    // Lists a task: its own line, and then those of its subtasks.
    #[cycle(listers)]
    fn task(&mut self, node: Node)
        requires level { node.level + rows_left self.old ≤ 2001 }
        ensures lines { (rest : List Node) → listed self.old (node ∷ rest) ≡ listed self.new rest }
        ensures problem { self.new.problem.now ≡ self.old.problem.now }
        ensures fewer { rows_left self.new ≤ rows_left self.old }
    {
        if let Some(row) = self.rows.next() {
            self.nodes.push_reserved(node);
            // rows count from 1, and each of them has one node; they are too few for the cast to lose any
            let number = self.nodes.len() as u16;
            self.tasks(number, node.level + 1, subtasks(self.problem, *row));
        }
    }

    // Lists tasks that have this parent and lie at this level, one after another.
    #[cycle(listers)]
    fn tasks(&mut self, parent: u16, level: u16, tasks: &[u16])
        requires level { level + rows_left self.old ≤ 2001 }
        ensures lines { (rest : List Node) → listed self.old (nodes_at parent level tasks.now ++ rest) ≡ listed self.new rest }
        ensures problem { self.new.problem.now ≡ self.old.problem.now }
        ensures fewer { rows_left self.new ≤ rows_left self.old }
    {
        for task in tasks {
            self.task(Node {
                parent,
                level,
                task: *task,
            });
        }
    }
}

// The nodes of a plan's tree.
fn tree_nodes(heap: Global, problem: &Problem, rows: &[Row]) -> Result<Vec<Node>, AllocError>
    requires { length rows.now ≤ 2000 }
    ensures { IfOk result (λ v. v.items ≡ tree_lines (problem_of problem.now) rows.now) }
{
    let mut lister = Lister {
        problem,
        rows: rows.iter(),
        nodes: Vec::with_capacity(heap, rows.len())?,
    };
    lister.tasks(0, 1, problem.first.as_slice());
    Ok(lister.nodes)
}

// Writes the text of the plan's tree at the start of the bytes and answers its length; a refusal alters nothing.
pub fn write_tree(
    heap: Global,
    problem: &Problem,
    rows: &[Row],
    bytes: &mut [u8],
) -> Result<usize, Fault>
    ensures answers { Answers (plan_asked (problem_of problem.now) rows.now) (tree_asked (problem_of problem.now) rows.now (length bytes.old)) (length (tree_text (problem_of problem.now) rows.now)) result }
    ensures leaves { Leaves (tree_text (problem_of problem.now) rows.now) bytes.old result bytes.new }
    ensures within { IfOk result (λ n. n ≤ length bytes.old) }
    ensures tree { OnOk result (Tree (problem_of problem.now) rows.now (tree_text (problem_of problem.now) rows.now)) }
{
    check_decomposition(heap, problem, rows)?;
    let nodes = tree_nodes(heap, problem, rows)?;
    let listing = Listing {
        number: problem.number,
        items: nodes.as_slice(),
    };
    write(bytes, &listing).map_err(|question| Fault::Refused(question.into()))
}
