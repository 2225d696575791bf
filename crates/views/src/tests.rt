// The tree and the walk of the worked plan, which were worked out by hand, and their refusals. That there is an answer, and not
// a want of memory, no contract says.
use crate::tree::write_tree;
use crate::walk::{Step, Walk};
use problem::{Problem, Row, RowFault};
use std::test::Fail;
use validate::Fault;

// As in `cases`, which is a program of its own.
const SHOP: &[u8] =
    b"shop=7\nfacts=3\nops=3\ntasks=1\nmethods=2\nstart=\nfirst=3\nshelf=0\nyes=\nno=0\nadd=0\ndel=\nshelf=4117\nyes=0\nno=1\nadd=1\ndel=\nshelf=4118\nyes=0\nno=2\nadd=2\ndel=\nfor=3\nyes=0\nno=\nsub=1,2\nfor=3\nyes=\nno=0\nsub=0,3\n";

const LIST: &[u8] = b"shop=7\nrows=5\nby=1\ndo=0\nby=0\ndo=1\ndo=2\n";

const TREE: &[u8] = b"shop=7\nrows=5\nnode=0,1,3\nnode=1,2,0\nnode=1,2,3\nnode=3,3,1\nnode=3,3,2\n";

// The worked problem, and the rows of its plan.
fn worked(rt: &HostRuntime) -> Result<(Problem, [Row; 5]), Fail> {
    let mut problem = Problem::new(rt.alloc())?;
    problem.load(rt.alloc(), SHOP)?;
    let mut rows = [Row::Do(0); 5];
    problem.load_plan(rt.alloc(), LIST, &mut rows)?;
    Ok((problem, rows))
}

// The number and the row of a refusal; zeros where there is none.
fn refusal(answer: Result<(), RowFault>) -> (u8, usize) {
    answer
        .err()
        .map_or((0, 0), |fault| (fault.question.number(), fault.row))
}

#[test]
fn tree(rt: HostRuntime) -> Result<(), Fail> {
    let (problem, rows) = worked(&rt)?;
    let mut bytes = [0u8; 100];
    let count = write_tree(rt.alloc(), &problem, &rows, &mut bytes)?;
    assert!(rt; &bytes[0..count] == TREE);
    Ok(())
}

// A slice that is a byte too short is refused and not altered; whether the text fits is asked last.
#[test]
fn short_tree(rt: HostRuntime) -> Result<(), Fail> {
    let (problem, rows) = worked(&rt)?;
    let mut bytes = [35u8; 68];
    for (rows, refused) in [(&rows[..], (22, 0)), (&rows[1..], (17, 1))] {
        let answer = match write_tree(rt.alloc(), &problem, rows, &mut bytes) {
            Err(Fault::Refused(fault)) => (fault.question.number(), fault.row),
            _ => (0, 0),
        };
        assert_eq!(rt; answer, refused);
        assert!(rt; bytes.iter().all(|b| *b == 35));
    }
    Ok(())
}

#[test]
fn walk(rt: HostRuntime) -> Result<(), Fail> {
    let (problem, rows) = worked(&rt)?;
    let mut walk = Walk::new();
    for (shelf, remaining) in [(0, 3), (4117, 1), (4118, 0)] {
        let step = walk.show(&problem, &rows)?;
        assert_eq!(rt; step, Some(Step { shelf, remaining }));
        walk.done(&problem, &rows)?;
    }
    assert!(rt; walk.show(&problem, &rows)?.is_none());
    assert_eq!(rt; refusal(walk.done(&problem, &rows)), (23, 0));
    Ok(())
}

// What is refused leaves the walk where it stands.
#[test]
fn refused_walk(rt: HostRuntime) -> Result<(), Fail> {
    let (problem, rows) = worked(&rt)?;
    let mut walk = Walk::new();
    walk.done(&problem, &rows)?;
    let bad = [Row::Do(0), Row::Do(1), Row::By(2)];
    assert_eq!(rt; refusal(walk.done(&problem, &bad)), (4, 3));
    let long = vec![in rt.alloc(); Row::By(2); 2001]?;
    assert_eq!(rt; refusal(walk.done(&problem, &long)), (21, 0));
    let step = walk.show(&problem, &rows)?;
    assert_eq!(rt; step.map(|step| step.shelf), Some(4117));
    Ok(())
}

#[test]
fn rows(rt: HostRuntime) -> Result<(), Fail> {
    let (problem, rows) = worked(&rt)?;
    let loaded = problem.load_rows(rt.alloc(), LIST)?;
    assert!(rt; loaded.as_slice() == rows.as_slice());
    Ok(())
}
