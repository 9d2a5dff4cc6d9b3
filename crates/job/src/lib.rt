// A label job: a font, an outline store, limits, what is lent and calls, read from plain text, a line an item.
// Reading is proved safe and to end on every text; what a line means is tested.
#![tactic(auto)]

mod calls;
mod jobs;
mod keys;
mod lines;
mod problems;
mod reader;
mod records;
mod tables;
mod words;

pub use calls::{Call, CallKind};
pub use jobs::{Job, Lent, Range};
pub use lines::read_job;
pub use problems::JobError;
pub use tables::JobTables;
