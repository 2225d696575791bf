// Loads a problem file.
ghost use Rattle.std.specs.Prelude.{◌≡◌, IfOk};
ghost use Rattle.problem.specs.Data.{operator_of, method_of, operators_of, methods_of};
ghost use Rattle.problem.specs.Formats.{times};
ghost use Rattle.problem.specs.Files.{fact_rule, task_rule, head as head_format, operator as operator_format, method as method_format};
ghost use Rattle.problem.specs.Reads.{from, Reads};
ghost use Rattle.problem.specs.Heads.{head_of};
ghost use Rattle.problem.specs.Loaded.{problem_of, new_data, ReadWhole, Filled, LoadsExactly, Back};
ghost use Rattle.problem.specs.Stops.{Stops};

use crate::definition::Problem;
use crate::entries::{Method, Operator};
use crate::faults::ProblemFault;
use crate::loader::Loader;
use crate::rule::Rule;
use std::alloc::{AllocError, Global};

// At most `most` facts below `facts`, ascending. One function for both lists would have a flag at each call.
fn fact_rule(most: usize, facts: u16) -> Rule
    ensures { result ≡ fact_rule most facts }
{
    Rule {
        low: 0,
        end: usize::from(facts),
        most,
        ascending: true,
    }
}

// At most `most` tasks below `tasks`.
fn task_rule(most: usize, tasks: usize) -> Rule
    ensures { result ≡ task_rule most tasks }
{
    Rule {
        low: 0,
        end: tasks,
        most,
        ascending: false,
    }
}

// What the lines at the head of a file hold: `ops` and `methods` tell how many blocks follow.
#[derive(Drop)]
pub(crate) struct Head {
    number: u16,
    facts: u16,
    ops: u16,
    tasks: u16,
    methods: u16,
    start: Vec<u16>,
    first: Vec<u16>,
}

fn read_head(loader: &mut Loader<'_, Problem>) -> Result<Head, ProblemFault>
    ensures { Reads (from head_format loader.old.reader) head_of result loader.new.reader }
{
    let number = loader.number(b"shop", 0, 65536)?;
    let facts = loader.number(b"facts", 1, 257)?;
    let ops = loader.number(b"ops", 1, 65)?;
    let tasks = loader.number(b"tasks", 0, 65)?;
    let methods = loader.number(b"methods", 0, 129)?;
    let start = loader.list(b"start", fact_rule(256, facts))?;
    let end = usize::from(ops) + usize::from(tasks);
    let first = loader.list(b"first", task_rule(16, end))?;
    Ok(Head {
        number,
        facts,
        ops,
        tasks,
        methods,
        start,
        first,
    })
}

fn read_operator(loader: &mut Loader<'_, Problem>, facts: u16) -> Result<Operator, ProblemFault>
    ensures { Reads (from (operator_format facts) loader.old.reader) operator_of result loader.new.reader }
{
    let rule = fact_rule(8, facts);
    let shelf = loader.number(b"shelf", 0, 65536)?;
    let yes = loader.list(b"yes", rule)?;
    let no = loader.list(b"no", rule)?;
    let add = loader.list(b"add", rule)?;
    let del = loader.list(b"del", rule)?;
    Ok(Operator {
        shelf,
        yes,
        no,
        add,
        del,
    })
}

fn read_operators(
    loader: &mut Loader<'_, Problem>,
    n: u16,
    facts: u16,
) -> Result<Vec<Operator>, ProblemFault>
    ensures { Reads (from (times n (operator_format facts)) loader.old.reader) operators_of result loader.new.reader }
{
    loader.times(n, |l| read_operator(l, facts))
}

// The numbers are cast, since `usize::from` leaves an equation that the search does not carry through the format.
fn read_method(
    loader: &mut Loader<'_, Problem>,
    facts: u16,
    ops: u16,
    tasks: u16,
) -> Result<Method, ProblemFault>
    ensures { Reads (from (method_format facts ops tasks) loader.old.reader) method_of result loader.new.reader }
{
    let rule = fact_rule(8, facts);
    let end = ops as usize + tasks as usize;
    let task = loader.number(b"for", ops as usize, end)?;
    let yes = loader.list(b"yes", rule)?;
    let no = loader.list(b"no", rule)?;
    let sub = loader.list(b"sub", task_rule(8, end))?;
    Ok(Method { task, yes, no, sub })
}

fn read_methods(
    loader: &mut Loader<'_, Problem>,
    n: u16,
    facts: u16,
    ops: u16,
    tasks: u16,
) -> Result<Vec<Method>, ProblemFault>
    ensures { Reads (from (times n (method_format facts ops tasks)) loader.old.reader) methods_of result loader.new.reader }
{
    loader.times(n, |l| read_method(l, facts, ops, tasks))
}

fn read_problem(heap: Global, text: &[u8]) -> Result<Problem, ProblemFault>
    ensures { ReadWhole text.now result }
{
    let mut loader = Loader::new(heap, text);
    let head = read_head(&mut loader)?;
    let Head {
        number,
        facts,
        ops,
        tasks,
        methods,
        start,
        first,
    } = head;
    let operators = read_operators(&mut loader, ops, facts)?;
    let methods = read_methods(&mut loader, methods, facts, ops, tasks)?;
    loader.finish()?;
    Ok(Problem {
        number,
        facts,
        tasks,
        start,
        first,
        operators,
        methods,
    })
}

impl Problem {
    // The problem before its first load: number 0, one fact, one operator with shelf 0 and empty lists.
    pub fn new(heap: Global) -> Result<Problem, AllocError>
        ensures { IfOk result (λ p. problem_of p ≡ new_data) }
    {
        let operators = vec![in heap;
            Operator {
                shelf: 0,
                yes: Vec::new(heap),
                no: Vec::new(heap),
                add: Vec::new(heap),
                del: Vec::new(heap),
            },
        ]?;
        Ok(Problem {
            number: 0,
            facts: 1,
            tasks: 0,
            start: Vec::new(heap),
            first: Vec::new(heap),
            operators,
            methods: Vec::new(heap),
        })
    }

    // Fills the problem with what the text means, or says what is wrong and leaves the problem as it was.
    pub fn load(&mut self, heap: Global, text: &[u8]) -> Result<(), ProblemFault>
        ensures fills { Filled text.now self.old result self.new }
        ensures exactly { LoadsExactly text.now }
        ensures back { Back text.now result self.new }
        ensures stops { Stops text.now result }
    {
        let loaded = read_problem(heap, text)?;
        *self = loaded;
        Ok(())
    }
}
