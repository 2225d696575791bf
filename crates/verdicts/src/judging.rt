// What is answered, printed in the parts of one line.
use anyhow::{Context, anyhow};
use problem::{Problem, Row, RowFault};
use text::written;
use validate::{Fault, write_verdict};
use views::{Walk, write_tree};

// No tree text is longer: 2,000 lines of at most 17 bytes, and two lines before them.
const TREE: usize = 34100;

// What validation answers, as `checker` prints it.
pub fn print_answer(rt: &HostRuntime, answer: Result<usize, Fault>) -> anyhow::Result<()> {
    let verdict = match answer {
        Ok(n) => Ok(n),
        Err(Fault::Refused(fault)) => Err(fault),
        Err(Fault::Memory) => return Err(anyhow!("out of memory")),
    };
    let mut line = [0u8; 80];
    let line = written(write_verdict(verdict, &mut line), &line).context("the line is too long")?;
    let line = str::from_utf8(line)?.trim_end();
    print!(rt; "{line}")?;
    Ok(())
}

fn print_refused(rt: &HostRuntime, what: &str, fault: RowFault) -> anyhow::Result<()> {
    let number = fault.question.number();
    let row = fault.row;
    print!(rt; "; {what}={number},{row}")?;
    Ok(())
}

// The length of the tree text, or why there is none; and whether a byte beyond the text was altered.
pub fn print_tree(rt: &HostRuntime, problem: &Problem, rows: &[Row]) -> anyhow::Result<()> {
    let mut bytes = vec![in rt.alloc(); 35u8; TREE]?;
    let answer = write_tree(rt.alloc(), problem, rows, &mut bytes);
    match answer {
        Ok(n) => print!(rt; "; tree={n}")?,
        Err(Fault::Refused(fault)) => print_refused(rt, "tree", fault)?,
        Err(Fault::Memory) => return Err(anyhow!("out of memory")),
    }
    if bytes.iter().skip(answer.unwrap_or(0)).any(|b| *b != 35) {
        print!(rt; " altered")?;
    }
    Ok(())
}

// How many stops the walk has: at most as many as there are rows, after which it shows nothing more.
fn stops(problem: &Problem, rows: &[Row]) -> Result<usize, RowFault> {
    let mut walk = Walk::new();
    for stops in 0..rows.len() {
        if walk.show(problem, rows)?.is_none() {
            return Ok(stops);
        }
        walk.done(problem, rows)?;
    }
    let more = walk.show(problem, rows)?.is_some();
    Ok(rows.len().saturating_add(usize::from(more)))
}

pub fn print_walk(rt: &HostRuntime, problem: &Problem, rows: &[Row]) -> anyhow::Result<()> {
    match stops(problem, rows) {
        Ok(n) => print!(rt; "; stops={n}")?,
        Err(fault) => print_refused(rt, "walk", fault)?,
    }
    println!(rt; "")?;
    Ok(())
}
