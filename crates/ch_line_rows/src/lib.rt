//! Rows of lines: read, refused with their kind and place, and written; and the texts of statuses.
#![tactic(auto)]

#[cfg(test)]
mod journal;
