// The states used through the same calls, the buyer's own among them.
use crate::definition::{Change, LoggedState};
use base::Question;
use state::{BitState, Concatenated, Negated, SparseState, State};
use std::test::Fail;

#[test]
fn pile(rt: HostRuntime) -> Result<(), Fail> {
    let logged = LoggedState::new(rt.alloc(), 3)?;
    let mut pile = Negated::new(Concatenated::new(logged, BitState::new()));
    assert_eq!(rt; pile.size(), 259);
    pile.set(2, false)?;
    pile.set(4, false)?;
    assert_eq!(rt;
        (pile.get(1), pile.get(2), pile.get(4)),
        (Some(true), Some(false), Some(false))
    );
    assert_eq!(rt; (pile.get(258), pile.get(259)), (Some(true), None));
    assert_eq!(rt; pile.set(259, true), Err(Question::FactWithinState));
    let Negated {
        below: Concatenated { first, second },
    } = pile;
    assert_eq!(rt; (first.get(2), second.get(1)), (Some(true), Some(true)));
    Ok(())
}

#[test]
fn log(rt: HostRuntime) -> Result<(), Fail> {
    let mut state = LoggedState::new(rt.alloc(), 3)?;
    state.set(2, true)?;
    assert_eq!(rt; state.set(3, true), Err(Question::FactWithinState));
    state.set(2, false)?;
    assert_eq!(rt; state.lost(), 0);
    assert_eq!(rt;
        state.log(),
        [
            Change {
                fact: 2,
                value: true,
            },
            Change {
                fact: 2,
                value: false,
            },
        ]
        .as_slice()
    );
    Ok(())
}

#[test]
fn longest(rt: HostRuntime) -> Result<(), Fail> {
    let first = LoggedState::new(rt.alloc(), 40000)?;
    let second = LoggedState::new(rt.alloc(), 40000)?;
    let mut both = Concatenated::new(first, second);
    assert_eq!(rt; both.size(), 65535);
    both.set(65534, true)?;
    assert_eq!(rt; (both.get(65534), both.get(65535)), (Some(true), None));
    assert_eq!(rt; both.set(65535, true), Err(Question::FactWithinState));
    Ok(())
}

#[test]
fn sparse(rt: HostRuntime) -> Result<(), Fail> {
    let mut state = Negated::new(SparseState::new(rt.alloc(), 300)?);
    assert_eq!(rt; state.size(), 256);
    state.set(7, false)?;
    state.set(3, false)?;
    state.set(7, true)?;
    assert_eq!(rt;
        (state.get(3), state.get(7), state.get(256)),
        (Some(false), Some(true), None)
    );
    assert_eq!(rt; state.set(256, true), Err(Question::FactWithinState));
    Ok(())
}
