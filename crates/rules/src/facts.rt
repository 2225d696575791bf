// Conditions, effects and the start, over any state.
ghost use Rattle.std.specs.Prelude.{◌≡◌, ◌≤◌, false, ◌++◌, length, drop, replicate, IfOk};
ghost use Rattle.problem.specs.Loaded.{problem_of};
ghost use Rattle.rules.specs.Effects.{holds, conditions, assigned, changed};
ghost use Rattle.rules.specs.Places.{worked, Works};
ghost use Rattle.rules.specs.Starting.{start_answer, start_leaves, Starts};

use crate::numbered::operator_at;
use base::{Question, ask};
use problem::{Operator, Problem, Row};
use state::State;

// Whether the fact holds; one that the state does not have does not.
fn is_held<S: State>(state: &S, fact: u16) -> bool
    ensures { result ≡ holds (S.facts state.now) fact }
{
    state.get(fact).unwrap_or(false)
}

// Whether each fact of `yes` holds on the state, and none of `no`.
pub fn conditions_hold<S: State>(state: &S, yes: &[u16], no: &[u16]) -> bool
    ensures { result ≡ conditions (S.facts state.now) yes.now no.now }
{
    for fact in yes {
        if !is_held(state, *fact) {
            return false;
        }
    }
    for fact in no {
        if is_held(state, *fact) {
            return false;
        }
    }
    true
}

// Puts the value at each of the facts. One that the state does not have is refused there, and changes nothing.
fn set_all<S: State>(state: &mut S, listed: &[u16], value: bool)
    ensures { S.facts state.new ≡ assigned value (S.facts state.old) listed.now }
{
    for fact in listed {
        let _ = state.set(*fact, value);
    }
}

// Clears what the operator deletes, and then sets what it adds: a fact in both holds afterwards.
fn apply<S: State>(state: &mut S, operator: &Operator)
    ensures { S.facts state.new ≡ changed (S.facts state.old) operator.now.del.items operator.now.add.items }
{
    set_all(state, operator.del.as_slice(), false);
    set_all(state, operator.add.as_slice(), true);
}

// Does the row's work on the state: that of its operator, and nothing where it splits a task.
pub fn perform<S: State>(problem: &Problem, row: Row, state: &mut S)
    ensures after { S.facts state.new ≡ worked (problem_of problem.now) row (S.facts state.old) }
    ensures means { Works (problem_of problem.now) row (S.facts state.old) (S.facts state.new) }
{
    match row {
        Row::By(_) => {}
        Row::Do(operator) => {
            if let Some(entry) = operator_at(problem, operator) {
                apply(state, entry);
            }
        }
    }
}

// No fact below the count holds any more. The facts are numbers, so nothing is indexed here.
#[tactic(auto, using(crate::proofs::Starts::clear_more))]
fn clear<S: State>(state: &mut S, count: u16)
    requires { count ≤ length (S.facts state.old) }
    ensures { S.facts state.new ≡ replicate count false ++ drop count (S.facts state.old) }
{
    for fact in 0..count {
        let _ = state.set(fact, false);
    }
}

// Puts the problem's start facts on the state; those beyond the problem's stay. A state with too few facts is refused, and
// left.
#[tactic(auto, unfolding(problem::specs::Loaded::problem_of))]
pub fn put_start<S: State>(problem: &Problem, state: &mut S) -> Result<(), Question>
    ensures after { S.facts state.new ≡ start_leaves (problem_of problem.now) (S.facts state.old) }
    ensures value { result ≡ start_answer (problem_of problem.now) (S.facts state.old) }
    ensures means { IfOk result (λ _. Starts (problem_of problem.now) (S.facts state.old) (S.facts state.new)) }
{
    ask(problem.facts <= state.size(), Question::StateLargeEnough)?;
    clear(state, problem.facts);
    set_all(state, problem.start.as_slice(), true);
    Ok(())
}
