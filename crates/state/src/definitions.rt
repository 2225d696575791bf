// The states that hold their facts themselves.
ghost use Rattle.std.specs.Prelude.{◌≡◌, ℕ, ◌<◌, ◌≤◌, length, vec_len, vec_capacity, slice_index};
ghost use Rattle.std.specs.List.Sorted.{IsStrictlyIncreasing};

// 256 facts, a bit each. No model: the law `within` would have to hold of every list of facts. `long` stays, as `within` needs
// it.
#[derive(Drop)]
pub struct BitState {
    pub(crate) words: [u64; 4],
    ghost long: { length words ≡ 4 },
}

// At most 256 facts. A sorted list and no set of the library: `held` has the numbers of those that hold, ascending. It has
// room for all of them from the start, so that no change can want memory.
#[derive(Drop)]
pub struct SparseState {
    pub(crate) size: u16,
    pub(crate) held: Vec<u16>,
    ghost small: { size ≤ 256 },
    ghost room: { 256 ≤ vec_capacity held },
    ghost rising: { IsStrictlyIncreasing held.items },
    ghost below: { ((k : ℕ) → k < vec_len held → slice_index held.items k < size) },
}
