// A list of items with the number of their problem: a plan's rows, or the nodes of its tree.
ghost use Rattle.problem.specs.Listings.{listing_text};

use text::{Render, Sink, number_line, put_all};

#[derive(Drop)]
pub struct Listing<'a, T> {
    pub number: u16,
    pub items: &'a [T],
}

impl<'a, T: Render> Render for Listing<'a, T> {
    ghost text = { listing_text T.text };

    fn render<S: Sink>(&self, sink: &mut S) {
        number_line(sink, b"shop", usize::from(self.number));
        number_line(sink, b"rows", self.items.len());
        put_all(sink, self.items);
    }
}
