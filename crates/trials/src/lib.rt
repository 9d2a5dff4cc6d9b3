// Trials of tables, lists and extracts on small fonts. Expected values are worked out by hand from docs/.
#![tactic(auto)]

#[cfg(test)]
mod fonts;
#[cfg(test)]
mod lists;
#[cfg(test)]
mod stores;
#[cfg(test)]
mod tables;
