// The reader of a text: its marks, its forms, and what it holds. It meets the rules of text. It stands on text, table and course.
#![tactic(auto)]

mod document;
mod errors;
mod forms;
mod kinds;
mod lines;
mod marks;
mod orders;
mod rows;

pub use document::{Document, read};
pub use errors::ReadError;
pub use marks::{Mark, Reader, Sign, Token};
