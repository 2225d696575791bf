// Places in a text, and what stands there.
use base::Question;

// The line counts from 1, the byte from 0 at the start of the text.
#[derive(Clone, Copy, Debug)]
pub struct Place {
    pub line: usize,
    pub byte: usize,
}

// A number as it stands in a text: what it is, and the byte of its first digit.
#[derive(Clone, Copy)]
pub struct Numbered {
    pub value: u16,
    pub byte: usize,
}

// The first of the questions on lines, keys and values that a text fails, and where.
#[derive(Clone, Copy, Debug)]
pub struct TextFault {
    pub question: Question,
    pub place: Place,
}
