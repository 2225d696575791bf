// Validation on one of many states, and what it leaves.
use crate::judging::print_answer;
use anyhow::anyhow;
use buyer::LoggedState;
use problem::{Problem, Row};
use rules::Limits;
use state::{BitState, Concatenated, Negated, SparseState, State};
use validate::validate;

// Whether the fact holds before validation: other facts than at the start, or on a new state.
fn before(fact: u16) -> bool {
    fact % 2 == 0
}

fn is_started(problem: &Problem, fact: u16) -> bool {
    if fact < problem.facts {
        problem.start.contains(&fact)
    } else {
        before(fact)
    }
}

// The state as it came, or the start facts on it and those beyond the problem's as they came.
fn left_as<S: State>(problem: &Problem, state: &S) -> &'static str {
    if (0..state.size()).all(|fact| state.get(fact) == Some(before(fact))) {
        "kept"
    } else if (0..state.size()).all(|fact| state.get(fact) == Some(is_started(problem, fact))) {
        "started"
    } else {
        "altered"
    }
}

fn validate_in<S: State + Drop>(
    rt: &HostRuntime,
    problem: &Problem,
    rows: &[Row],
    limits: Limits,
    mut state: S,
) -> anyhow::Result<()> {
    for fact in 0..state.size() {
        let _ = state.set(fact, before(fact));
    }
    print_answer(rt, validate(rt.alloc(), problem, rows, limits, &mut state))?;
    let left = left_as(problem, &state);
    print!(rt; "; {left}")?;
    Ok(())
}

// Piles of states, the buyer's own among them.
fn validate_on_pile(
    rt: &HostRuntime,
    name: &str,
    problem: &Problem,
    rows: &[Row],
    limits: Limits,
) -> anyhow::Result<()> {
    let heap = rt.alloc();
    match name {
        "deep" => {
            let few = Negated::new(SparseState::new(heap, 2)?);
            let rest = Concatenated::new(LoggedState::new(heap, 2)?, BitState::new());
            let state = Negated::new(Concatenated::new(few, rest));
            validate_in(rt, problem, rows, limits, state)
        }
        "long" => {
            let rest = Negated::new(LoggedState::new(heap, 40000)?);
            let state = Concatenated::new(LoggedState::new(heap, 40000)?, rest);
            validate_in(rt, problem, rows, limits, state)
        }
        _ => Err(anyhow!("no state has the name {name}")),
    }
}

// The states by their names.
pub fn validate_on(
    rt: &HostRuntime,
    name: &str,
    problem: &Problem,
    rows: &[Row],
    limits: Limits,
) -> anyhow::Result<()> {
    let heap = rt.alloc();
    match name {
        "bits" => validate_in(rt, problem, rows, limits, BitState::new()),
        "sparse" => validate_in(rt, problem, rows, limits, SparseState::new(heap, 300)?),
        "small" => validate_in(rt, problem, rows, limits, SparseState::new(heap, 2)?),
        "logged" => validate_in(rt, problem, rows, limits, LoggedState::new(heap, 300)?),
        "negated" => validate_in(rt, problem, rows, limits, Negated::new(BitState::new())),
        "concatenated" => {
            let state = Concatenated::new(SparseState::new(heap, 2)?, BitState::new());
            validate_in(rt, problem, rows, limits, state)
        }
        _ => validate_on_pile(rt, name, problem, rows, limits),
    }
}
