// What is printed, byte by byte as the library made it.
use anyhow::Context;
use problem::Refusal;
use std::io::Write;
use text::written;

pub fn print(rt: &HostRuntime, line: &[u8]) -> anyhow::Result<()> {
    Ok(rt.stdout().write_all(line)?)
}

// Want of memory has no refusal.
pub fn print_refusal(
    rt: &HostRuntime,
    subject: &[u8],
    refusal: Option<Refusal>,
) -> anyhow::Result<()> {
    let refusal = refusal.context("out of memory")?;
    let mut line = [0u8; 80];
    let line = written(refusal.write_line(subject, &mut line), &line);
    print(rt, line.context("the line is too long")?)
}
