// Where a record stands in a table: the numbers of its records, in rising order, searched by halves.
#![tactic(auto)]

mod items;
mod numbers;
mod search;

pub use items::{Span, item, part};
pub use numbers::{Directory, Rows};
