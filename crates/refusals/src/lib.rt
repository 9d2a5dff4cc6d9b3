// Why a call is refused, and where.
// A refusal has a number, and carries what that number tells of: a definition in specs/ says which, for every case.
#![tactic(auto)]

mod errors;
mod places;

pub use errors::DrawError;
pub use places::{Place, Refusal};
