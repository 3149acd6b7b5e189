//! What every layer speaks in and what has nothing to do with RDF: want of memory, lists and texts that contracts see as
//! lists, the lines of a text, numbers spelled in bytes, and counts of faults.
//!
//! This is the lowest crate. Its definitions are those of lists read as sets (`specs/Lists.antt`), of lines
//! (`specs/Lines.antt`), of the bytes of numbers (`specs/Numbers.antt`) and of a count of faults that has risen
//! (`specs/Faults.antt`).
#![tactic(auto)]

mod lines;
mod list;
mod number;
mod text;
mod want;

pub use lines::{LineEnd, first_line};
pub use list::List;
pub use number::{first_u32, first_u64, get_u32, get_u64, put_u32, put_u64};
pub use text::Text;
pub use want::Want;

#[cfg(test)]
mod tests;
