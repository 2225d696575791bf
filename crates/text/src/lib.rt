// Lines, keys and values of a text: how they are read, and how they are written.
#![tactic(auto)]

mod cursor;
mod numbers;
mod place;
mod reading;
mod render;
mod sink;
mod slices;
mod values;
mod writing;

pub use cursor::Reader;
pub use numbers::Numbers;
pub use place::{Numbered, Place, TextFault};
pub use render::Render;
pub use sink::Sink;
pub use writing::{
    list_line, number_line, put_all, put_bytes, put_list, put_number, write, written,
};
