// Extracts: a font or a store over another that shows only the records of a closed reading list.
// An extract's meaning is the extract of the meaning below; it is a font, or a store, again, so extracts can be piled.
#![tactic(auto)]

mod extracts;
mod font_extract;
mod store_extract;

pub use extracts::Extract;
