// The longest legal file and the longest plan.
use crate::loads::worked_problem;
use anyhow::Context;
use input::first_bytes_of;
use problem::{Problem, Row};
use text::written;

// Writes the problem into a slice that is a byte too short, which is refused and altered nowhere.
fn print_too_short(rt: &HostRuntime, problem: &Problem) -> anyhow::Result<()> {
    let mut back = vec![in rt.alloc(); 35u8; 25678]?;
    let question = problem
        .write(&mut back)
        .err()
        .context("the longest file fits a slice that is too short")?;
    let kept = back.iter().all(|b| *b == 35);
    let note = if kept { "" } else { " altered" };
    let number = question.number();
    println!(rt; "the longest file, a byte too few: {number}{note}")?;
    Ok(())
}

pub fn file(rt: &HostRuntime) -> anyhow::Result<()> {
    let text = first_bytes_of(rt, "longest")?;
    let mut problem = Problem::new(rt.alloc())?;
    problem
        .load(rt.alloc(), text.as_slice())
        .ok()
        .context("the longest file does not load")?;
    let mut back = vec![in rt.alloc(); 0u8; 25679]?;
    let n = problem
        .write(&mut back)
        .ok()
        .context("the longest file is not written back")?;
    let note = if back.as_slice() == text.as_slice() {
        ""
    } else {
        " differs"
    };
    println!(rt; "the longest file: ok {n}{note}")?;
    print_too_short(rt, &problem)
}

// Writes and loads a plan of 2,000 rows.
pub fn plan(rt: &HostRuntime, worked: &[u8]) -> anyhow::Result<()> {
    let problem = worked_problem(rt, worked)?;
    let rows = vec![in rt.alloc(); Row::By(1); 2000]?;
    let mut text = vec![in rt.alloc(); 0u8; 65536]?;
    let text = written(problem.write_plan(&rows, &mut text), &text).context(
        "the longest plan is not written",
    )?;
    let mut loaded = vec![in rt.alloc(); Row::Do(0); 2000]?;
    let count = problem
        .load_plan(rt.alloc(), text, &mut loaded)
        .ok()
        .context("the longest plan does not load")?;
    println!(rt; "the longest plan: ok {count}")?;
    Ok(())
}
