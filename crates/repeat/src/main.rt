// Loads or writes the problem on standard input, or validates a plan of it, many times over, so that it can be timed.
// The words: `load`, `write` or `validate`, how often, and after `validate` the plan's file.
#![tactic(auto)]

mod texts;
mod validation;

use anyhow::{Context, anyhow};
use input::first_bytes;
use std::env;
use texts::{load, write};
use validation::validate_plan;

fn main(rt: HostRuntime) -> anyhow::Result<()> {
    let rt = &rt;
    let mut words = env::args(rt)?;
    let _program = words.next();
    let mode = words
        .next()
        .context("a word is missing: load, write or validate")?;
    let times = words
        .next()
        .context("a word is missing: how often")?
        .parse::<u32>()?;
    let text = first_bytes(rt.alloc(), &mut rt.stdin())?;
    // three words, each with its own steps
    let (counted, sum) = match mode.as_str() {
        "load" => ("bytes", load(rt, text.as_slice(), times)?),
        "write" => ("bytes", write(rt, text.as_slice(), times)?),
        "validate" => {
            let path = words.next().context("a word is missing: the plan's file")?;
            let rows = validate_plan(rt, text.as_slice(), path.as_str(), times)?;
            ("rows", rows)
        }
        _ => return Err(anyhow!("the first word is load, write or validate")),
    };
    println!(rt; "{mode}={times}")?;
    println!(rt; "{counted}={sum}")?;
    Ok(())
}
