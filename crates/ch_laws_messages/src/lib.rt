//! The laws of messages: what a node of a journal has said to another is carried, under way, got and taken, and so the promise is kept.
//!
//! Each module has a claim that each turn keeps, as long as others are kept: `said`, `carried` and `payloads` that what is said is carried
//! by what is written; `way` and `asks` that what is written is under way, or read; `got`, `entered` and `arrived` that what is read is
//! got, is what was said, and is got by the bytes that were fed; `sends` and `mailboxes` that links give an id to each pair, and that
//! mailboxes stand by the log. `answers` has what lines are answered then, and `promised` takes all of it together.
//!
//! No code: definitions, and laws as clauses of empty functions, over the model below. The files of definitions and proofs of a module
//! have its name in front.
#![tactic(auto)]

pub mod answers;
pub mod arrived;
pub mod asks;
pub mod carried;
pub mod entered;
pub mod got;
pub mod mailboxes;
pub mod payloads;
pub mod promised;
pub mod said;
pub mod sends;
pub mod way;
