// Loads a text, prints the answer, and sees that a refusal altered nothing and that what was loaded is written back.
use anyhow::Context;
use problem::{Problem, Refusal, Row};
use text::written;

pub fn print_refusal(rt: &HostRuntime, refusal: Option<Refusal>, kept: bool) -> anyhow::Result<()> {
    let f = refusal.context("out of memory")?;
    let number = f.question.number();
    let line = f.place.line;
    let byte = f.place.byte;
    let note = if kept { "" } else { " altered" };
    println!(rt; ": {number},{line},{byte}{note}")?;
    Ok(())
}

// The problem that is loaded already where a case begins.
pub fn worked_problem(rt: &HostRuntime, worked: &[u8]) -> anyhow::Result<Problem> {
    let mut problem = Problem::new(rt.alloc())?;
    let _ = problem.load(rt.alloc(), worked);
    Ok(problem)
}

// Loads the text over a problem that is loaded already.
pub fn load_shop(rt: &HostRuntime, worked: &[u8], text: &[u8]) -> anyhow::Result<()> {
    let mut problem = worked_problem(rt, worked)?;
    let mut back = vec![in rt.alloc(); 0u8; 65536]?;
    match problem.load(rt.alloc(), text) {
        Ok(()) => {
            let bytes = text.len();
            let note = if written(problem.write(&mut back), &back) == Some(text) {
                ""
            } else {
                " differs"
            };
            println!(rt; ": ok {bytes}{note}")?;
            Ok(())
        }
        Err(fault) => {
            let kept = written(problem.write(&mut back), &back) == Some(worked);
            print_refusal(rt, fault.refusal(), kept)
        }
    }
}

// Whether the rows are still the one that the slice was filled with.
fn are_left(rows: &[Row]) -> bool {
    rows.iter().all(|row| *row == Row::Do(65535))
}

// Loads the text into a slice of so many rows, against the worked problem.
pub fn load_plan(rt: &HostRuntime, worked: &[u8], text: &[u8], slots: usize) -> anyhow::Result<()> {
    let problem = worked_problem(rt, worked)?;
    let mut rows = vec![in rt.alloc(); Row::Do(65535); slots]?;
    match problem.load_plan(rt.alloc(), text, &mut rows) {
        Ok(n) => {
            let mut back = vec![in rt.alloc(); 0u8; 65536]?;
            let same = n <= rows.len()
                && written(problem.write_plan(&rows[0..n], &mut back), &back) == Some(text)
                && are_left(&rows[n..]);
            let note = if same { "" } else { " differs" };
            println!(rt; ": ok {n}{note}")?;
            Ok(())
        }
        Err(fault) => {
            let kept = are_left(&rows);
            print_refusal(rt, fault.refusal(), kept)
        }
    }
}
