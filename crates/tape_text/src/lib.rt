// A tape as text: one group of hex digits for each code and each coordinate.
#![tactic(auto)]

mod hex;
mod spelling;

pub use spelling::tape_text;
