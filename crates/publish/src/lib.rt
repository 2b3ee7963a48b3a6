//! A board of published versions. One poster puts up value after value, each of which goes on where the one before
//! ended, and up to 64 readers take the value that stands there. A reader never goes back to an earlier value.
//!
//! A reader takes the latest value without waiting, by `Reader::latest`. What the poster tells in a `Note` a reader
//! may learn, and then `Reader::refresh` reads no less than that.
#![tactic(auto)]

mod boards;
mod failure;
mod notes;
mod open;
mod post;
mod posters;
mod readers;
mod rule;
mod sight;
#[cfg(test)]
mod tests;
mod values;

pub use boards::Board;
pub use failure::Memory;
pub use notes::Note;
pub use open::open_board;
pub use posters::Poster;
pub use readers::Reader;
pub use values::Numbered;
