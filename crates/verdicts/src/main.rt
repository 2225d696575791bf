// Judges plans, and prints what validation, the tree and the walk answer and leave. A case is a line of standard input with
// the parts problem|levels|rows|state|plan|name: a problem file, the two limits, one of the states of `states`, and the rows.
#![tactic(auto)]

mod case;
mod judging;
mod states;

use case::{Case, loaded, rows_of};
use input::first_bytes;
use judging::{print_tree, print_walk};
use states::validate_on;

fn run_case(rt: &HostRuntime, line: &str) -> anyhow::Result<()> {
    let case = Case::read(rt.alloc(), line)?;
    let problem = loaded(rt, case.problem)?;
    let rows = rows_of(rt, &problem, case.plan)?;
    let name = case.name;
    print!(rt; "{name}: ")?;
    validate_on(rt, case.state, &problem, &rows, case.limits)?;
    print_tree(rt, &problem, &rows)?;
    print_walk(rt, &problem, &rows)
}

fn main(rt: HostRuntime) -> anyhow::Result<()> {
    let rt = &rt;
    let table = first_bytes(rt.alloc(), &mut rt.stdin())?;
    for line in str::from_utf8(table.as_slice())?.lines() {
        run_case(rt, line)?;
    }
    Ok(())
}
