// The reading list: every record that a drawing consulted, each once, in the order of first consulting.
// Its law is proved for every drawing that is a tree of questions: see `repeats_stand`, `extracts_stand` and `lists_stand`.
#![tactic(auto)]

mod checks;
mod closed;
mod consulting;
mod entries;
mod law;
mod limits;
mod listed;
mod tracer;
mod tracing;

pub use closed::ClosedTrace;
pub use entries::Entry;
pub use law::{extracts_stand, lists_stand, repeats_stand};
pub use limits::Limits;
pub use listed::Listed;
pub use tracer::Tracer;
