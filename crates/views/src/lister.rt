// How far the listing of a plan's tree has come.
ghost use Rattle.std.specs.Prelude.{◌+◌, ◌≤◌, length, vec_len};
ghost use Rattle.std.specs.Slice.Iter.{iter_rest};
ghost use Rattle.std.specs.Vec.{vec_capacity};

use crate::tree::Node;
use problem::{Problem, Row};
use std::slice::Iter;

// The rows that are left, and the nodes so far, one for each row that was taken.
#[derive(Drop)]
pub(crate) struct Lister<'a> {
    pub(crate) problem: &'a Problem,
    pub(crate) rows: Iter<'a, Row>,
    pub(crate) nodes: Vec<Node>,
    ghost few: { vec_len nodes + length (iter_rest rows) ≤ 2000 },
    ghost room: { vec_len nodes + length (iter_rest rows) ≤ vec_capacity nodes },
}
