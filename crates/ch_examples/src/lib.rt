//! Worked journals and their logs, computed from the definitions. No code that ships.
//!
//! The model stands below. Nothing stands above: each row is a lemma, that the definitions give
//! exactly what is printed here.
#![tactic(auto)]
