// The problem's text, loaded or written many times over. Sizes are cast to 64 bits, which are as many.
use anyhow::Context;
use problem::{LONGEST, Problem};

// Fills the problem with what the text means.
fn fill(rt: &HostRuntime, problem: &mut Problem, text: &[u8]) -> anyhow::Result<()> {
    problem
        .load(rt.alloc(), text)
        .ok()
        .context("the text is no problem file")
}

// Loads the text so many times, and answers how many bytes were read in all.
pub fn load(rt: &HostRuntime, text: &[u8], times: u32) -> anyhow::Result<u64> {
    let mut problem = Problem::new(rt.alloc())?;
    let mut bytes = 0u64;
    for _ in 0..times {
        fill(rt, &mut problem, text)?;
        bytes = bytes.saturating_add(text.len() as u64);
    }
    Ok(bytes)
}

// The problem that the text means.
pub fn load_once(rt: &HostRuntime, text: &[u8]) -> anyhow::Result<Problem> {
    let mut problem = Problem::new(rt.alloc())?;
    fill(rt, &mut problem, text)?;
    Ok(problem)
}

// Loads the text once and writes it so many times, and answers how many bytes were written in all.
pub fn write(rt: &HostRuntime, text: &[u8], times: u32) -> anyhow::Result<u64> {
    let problem = load_once(rt, text)?;
    let mut back = vec![in rt.alloc(); 0u8; LONGEST]?;
    let mut bytes = 0u64;
    for _ in 0..times {
        let n = problem
            .write(&mut back)
            .ok()
            .context("the text is too long")?;
        bytes = bytes.saturating_add(n as u64);
    }
    Ok(bytes)
}
