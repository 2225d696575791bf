// Two sinks: one that sees whether bytes fit, and one that writes them.
ghost use Rattle.text.specs.Sinks.{Counts, Lays};

use crate::sink::Sink;

// How much room is left; nothing once a byte came for which there was none.
#[derive(Drop)]
pub(crate) struct Room {
    pub(crate) left: Option<usize>,
}

impl Sink for Room {
    ghost takes = { Counts };

    fn put(&mut self, _b: u8) {
        self.left = self.left.and_then(|left| left.checked_sub(1));
    }
}

// The caller's bytes, of which the first `at` are written. With the slice of what is left in their place nothing is
// known of the lent bytes at the end.
#[derive(Drop)]
pub(crate) struct Lent<'a> {
    pub(crate) bytes: &'a mut [u8],
    pub(crate) at: usize,
}

impl<'a> Sink for Lent<'a> {
    ghost takes = { Lays };

    fn put(&mut self, b: u8) {
        if self.at < self.bytes.len() {
            self.bytes[self.at] = b;
            self.at += 1;
        }
    }
}
