// A plan, validated many times over.
use crate::texts::load_once;
use anyhow::Context;
use input::first_bytes_of;
use problem::{Problem, Row};
use rules::WIDEST;
use state::BitState;
use validate::validate;

// The rows of the plan in the file.
fn load_rows(rt: &HostRuntime, problem: &Problem, path: &str) -> anyhow::Result<Vec<Row>> {
    let text = first_bytes_of(rt, path)?;
    problem
        .load_rows(rt.alloc(), &text)
        .ok()
        .context("the file is no plan of the problem")
}

// Loads problem and plan once and validates the plan so many times, and answers how many rows passed in all.
pub fn validate_plan(rt: &HostRuntime, text: &[u8], path: &str, times: u32) -> anyhow::Result<u64> {
    let problem = load_once(rt, text)?;
    let rows = load_rows(rt, &problem, path)?;
    let mut state = BitState::new();
    let mut sum = 0u64;
    for _ in 0..times {
        let count = validate(rt.alloc(), &problem, rows.as_slice(), WIDEST, &mut state)
            .ok()
            .context("the plan is no solution")?;
        sum = sum.saturating_add(count as u64);
    }
    Ok(sum)
}
