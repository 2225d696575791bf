// What a value is written as.
ghost use Rattle.std.specs.Prelude.{ℕ, List};
ghost use Rattle.text.specs.Fed.{Fed};

use crate::sink::Sink;

// Not `Display`: its contract says what is written where `fmt` answers Ok, and nothing says when it does, so that no text
// could be promised to fit.
pub trait Render {
    // The bytes, whatever they are written to.
    ghost text: { Self → List ℕ };

    fn render<S: Sink>(&self, sink: &mut S)
        ensures { Fed S.takes sink.old (text self.now) sink.new };
}
