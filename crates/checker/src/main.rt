// Reads shop.txt and list.txt in the folder it is run in, and prints whether the plan solves the problem.
#![tactic(auto)]

mod faults;
mod judging;
mod report;
#[cfg(test)]
mod tests;

use anyhow::Context;
use input::first_bytes_of;
use judging::judge;
use report::write_answer;
use std::io::Write;
use text::written;

fn main(rt: HostRuntime) -> anyhow::Result<()> {
    let rt = &rt;
    let shop = first_bytes_of(rt, "shop.txt")?;
    let list = first_bytes_of(rt, "list.txt")?;
    let answer = judge(rt.alloc(), &shop, &list);
    let mut line = [0u8; 80];
    let count = write_answer(answer, &mut line).context("out of memory")?;
    let line = written(count, &line).context("the line is too long")?;
    Ok(rt.stdout().write_all(line)?)
}
