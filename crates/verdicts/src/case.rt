// The parts of a case, and the problem and the rows that they name.
use anyhow::{Context, anyhow};
use input::first_bytes_of;
use problem::{Problem, Row};
use rules::Limits;
use std::alloc::Global;

#[derive(Clone, Copy)]
pub struct Case<'a> {
    pub problem: &'a str,
    pub limits: Limits,
    pub state: &'a str,
    pub plan: &'a str,
    pub name: &'a str,
}

impl<'a> Case<'a> {
    pub fn read(heap: Global, line: &'a str) -> anyhow::Result<Case<'a>> {
        let parts: Vec<&str> = line.split('|').collect(heap)?;
        let &[problem, levels, rows, state, plan, name] = parts.as_slice() else {
            return Err(anyhow!("a case has six parts"));
        };
        let limits = Limits {
            levels: levels.parse::<u8>()?,
            rows: rows.parse::<u16>()?,
        };
        Ok(Case {
            problem,
            limits,
            state,
            plan,
            name,
        })
    }
}

// The problem in the file of that name.
pub fn loaded(rt: &HostRuntime, path: &str) -> anyhow::Result<Problem> {
    let text = first_bytes_of(rt, path)?;
    let mut problem = Problem::new(rt.alloc())?;
    problem
        .load(rt.alloc(), &text)
        .ok()
        .context("a problem file does not load")?;
    Ok(problem)
}

// A row as a plan text has it.
fn row_of(text: &str) -> anyhow::Result<Row> {
    let (key, number) = text.split_once('=').context("a row has no number")?;
    let number = number.parse::<u16>()?;
    match key {
        "by" => Ok(Row::By(number)),
        "do" => Ok(Row::Do(number)),
        _ => Err(anyhow!("a row begins with by or do")),
    }
}

// Adds what one word means: the rows of the plan text in a file, `@FILE`; a row many times, `COUNT*ROW`; or a row.
fn add_rows(
    rt: &HostRuntime,
    problem: &Problem,
    rows: &mut Vec<Row>,
    word: &str,
) -> anyhow::Result<()> {
    if let Some(path) = word.strip_prefix('@') {
        let text = first_bytes_of(rt, path)?;
        let listed = problem
            .load_rows(rt.alloc(), &text)
            .ok()
            .context("a plan text does not load")?;
        rows.extend_from_slice(&listed)?;
        return Ok(());
    }
    let (count, row) = word.split_once('*').unwrap_or(("1", word));
    let row = row_of(row)?;
    for _ in 0..count.parse::<u16>()? {
        rows.push(row)?;
    }
    Ok(())
}

// The rows of the words, in their order. They are not loaded as a text, so that they may name what the problem does not have.
pub fn rows_of(rt: &HostRuntime, problem: &Problem, plan: &str) -> anyhow::Result<Vec<Row>> {
    let mut rows = Vec::new(rt.alloc());
    for word in plan.split_whitespace() {
        add_rows(rt, problem, &mut rows, word)?;
    }
    Ok(rows)
}
