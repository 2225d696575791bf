// Loads the problem file on standard input, and prints what it holds or what is wrong with it. Where a word is given, it names
// a plan text, whose tree and walk are printed too.
#![tactic(auto)]

mod output;
mod plan_views;

use anyhow::Context;
use input::first_bytes;
use output::{print, print_refusal};
use plan_views::print_plan;
use problem::{LONGEST, Problem};
use std::env;
use text::written;

fn print_summary(rt: &HostRuntime, problem: &Problem, text: &[u8]) -> anyhow::Result<()> {
    let mut back = vec![in rt.alloc(); 0u8; LONGEST]?;
    let back = written(problem.write(&mut back), &back).context("the text is too long")?;
    let mut lines = [0u8; 240];
    let lines = written(problem.write_summary(text, back, &mut lines), &lines);
    print(rt, lines.context("the lines are too long")?)
}

fn main(rt: HostRuntime) -> anyhow::Result<()> {
    let rt = &rt;
    let text = first_bytes(rt.alloc(), &mut rt.stdin())?;
    let mut problem = Problem::new(rt.alloc())?;
    if let Err(fault) = problem.load(rt.alloc(), text.as_slice()) {
        return print_refusal(rt, b"shop", fault.refusal());
    }
    print_summary(rt, &problem, text.as_slice())?;
    let mut words = env::args(rt)?;
    let _program = words.next();
    if let Some(path) = words.next() {
        print_plan(rt, &problem, path.as_str())?;
    }
    Ok(())
}
