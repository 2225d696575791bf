// The tree and the walk of a plan.
use crate::output::{print, print_refusal};
use anyhow::{Context, anyhow};
use input::first_bytes_of;
use problem::{Problem, Row, RowFault};
use text::written;
use validate::{Fault, write_verdict};
use views::{Walk, write_tree};

// No tree text is longer: 2,000 lines of at most 17 bytes, and two lines before them.
const TREE: usize = 34100;

// The first question that the plan fails as a decomposition.
fn print_failure(rt: &HostRuntime, fault: RowFault) -> anyhow::Result<()> {
    let mut line = [0u8; 80];
    let line = written(write_verdict(Err(fault), &mut line), &line);
    print(rt, line.context("the line is too long")?)
}

fn print_tree(rt: &HostRuntime, problem: &Problem, rows: &[Row]) -> anyhow::Result<()> {
    let mut bytes = vec![in rt.alloc(); 0u8; TREE]?;
    match write_tree(rt.alloc(), problem, rows, &mut bytes) {
        Ok(n) => print(rt, &bytes[..n]),
        Err(Fault::Refused(fault)) => print_failure(rt, fault),
        Err(Fault::Memory) => Err(anyhow!("out of memory")),
    }
}

// A line for each stop, in the order of the walk, which has no more stops than there are rows.
fn print_walk(rt: &HostRuntime, problem: &Problem, rows: &[Row]) -> anyhow::Result<()> {
    let mut walk = Walk::new();
    for _ in 0..rows.len() {
        let Ok(Some(step)) = walk.show(problem, rows) else {
            break;
        };
        let mut line = [0u8; 40];
        let line = written(step.write_line(&mut line), &line);
        print(rt, line.context("the line is too long")?)?;
        let _ = walk.done(problem, rows);
    }
    Ok(())
}

// Loads the plan text of that name, and prints its tree and its walk.
pub fn print_plan(rt: &HostRuntime, problem: &Problem, path: &str) -> anyhow::Result<()> {
    let text = first_bytes_of(rt, path)?;
    match problem.load_rows(rt.alloc(), &text) {
        Ok(rows) => {
            print_tree(rt, problem, &rows)?;
            print_walk(rt, problem, &rows)
        }
        Err(fault) => print_refusal(rt, b"list", fault.refusal()),
    }
}
