// Where a reader stands in a text.
ghost use Rattle.std.specs.Prelude.{◌+◌, ◌^◌, ◌<◌, ◌≤◌, length};

// What is left of a text after its first bytes, and the line that is due there.
#[derive(Drop)]
pub struct Reader<'a> {
    pub(crate) rest: &'a [u8],
    pub(crate) line: usize,
    pub(crate) byte: usize,
    ghost fits: { byte + length rest.now < 2 ^ 64 },
    ghost counted: { line ≤ byte + 1 },
}
