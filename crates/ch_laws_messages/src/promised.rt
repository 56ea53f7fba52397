//! The laws of what is promised: all that is so of the messages of a journal of many nodes, put together, and so all that the whole
//! model promises of its log.
//!
//! Each claim of the modules beside this one is kept by each turn as long as others are; here they are taken in an order in which each
//! stands on those before it. That messages are spelled and numbered holds of each log that the grammar's journals have, and of all that
//! such a log begins with.
//!
//! No code: definitions, and laws as clauses of empty functions, over the model below.

ghost use Rattle.std.specs.Prelude.{◌≡◌, ℕ, List, [], ◌++◌, Ok};
ghost use Rattle.ch_model.specs.declared.entry.Entry.{Entry};
ghost use Rattle.ch_model.specs.declared.line.Line.{Line};
ghost use Rattle.ch_model.specs.Accounts.{IsAccountedFor};
ghost use Rattle.ch_model.specs.Delivery.{HasLawfulReceipts};
ghost use Rattle.ch_model.specs.HasAnswers.{HasAnswers};
ghost use Rattle.ch_model.specs.Journal.{journal_of};
ghost use Rattle.ch_model.specs.Lawful.{IsPromised};
ghost use Rattle.ch_model.specs.LifeRules.{FollowsLife};
ghost use Rattle.ch_model.specs.LinesBuilt.{many_nodes};
ghost use Rattle.ch_model.specs.Links.{FollowsLinkDiscipline};
ghost use Rattle.ch_model.specs.Mailboxes.{FollowsMailboxes};
ghost use Rattle.ch_model.specs.World.{world_new, log_from, log_of};
ghost use Rattle.ch_model.specs.WorldState.{World};
ghost use Rattle.ch_laws_messages.specs.PromisedSpelt.{IsSpelt};
ghost use Rattle.ch_laws_messages.specs.PromisedStands.{Stands};

/// After any first lines of a journal that the grammar of many nodes reads, of whatever bytes: hosts and nodes stand as they do; all
/// that was said is carried, in time, under way or read, and what was read was got as it should be; links have given an id for each
/// pair that has said something; and what stands in mailboxes is what has entered them and wasn't taken. What was said by then is
/// spelled as the grammar allows, and numbered as it came.
pub fn all_stands()
    ensures fronts { (bytes : List ℕ) (front rest : List Line) → front ++ rest ≡ journal_of many_nodes bytes → (log : List Entry) (world : World) → log_from (world_new (journal_of many_nodes bytes)) front ≡ Ok (log, world) → Stands (journal_of many_nodes bytes) log world }
    ensures spelt { (bytes : List ℕ) (front rest : List Line) → front ++ rest ≡ journal_of many_nodes bytes → (log : List Entry) (world : World) → log_from (world_new (journal_of many_nodes bytes)) front ≡ Ok (log, world) → IsSpelt (journal_of many_nodes bytes) log }
{}

/// So the log of each such journal follows the rules of links, of lives and of mailboxes; receipts are lawful; its event lines are
/// answered as the log before them shows, and do what they say; and it is accounted for by its bytes.
pub fn logs_follow_the_rules()
    ensures links { (bytes : List ℕ) (log : List Entry) → log_of (journal_of many_nodes bytes) ≡ Ok log → FollowsLinkDiscipline log }
    ensures lives { (bytes : List ℕ) (log : List Entry) → log_of (journal_of many_nodes bytes) ≡ Ok log → FollowsLife (journal_of many_nodes bytes) log }
    ensures mailboxes { (bytes : List ℕ) (log : List Entry) → log_of (journal_of many_nodes bytes) ≡ Ok log → FollowsMailboxes (journal_of many_nodes bytes) log }
    ensures receipts { (bytes : List ℕ) (log : List Entry) → log_of (journal_of many_nodes bytes) ≡ Ok log → HasLawfulReceipts log }
    ensures answers { (bytes : List ℕ) (log : List Entry) → log_of (journal_of many_nodes bytes) ≡ Ok log → HasAnswers (journal_of many_nodes bytes) log }
    ensures bytes { (bytes : List ℕ) (log : List Entry) → log_of (journal_of many_nodes bytes) ≡ Ok log → IsAccountedFor (journal_of many_nodes bytes) log }
{}

/// The promise: all that the whole model promises of a log holds of the log of each journal that the grammar of many nodes reads, of
/// whatever bytes. Messages from one process to another are got in order, each at most once, and only if they were said.
pub fn the_promise_is_kept()
    ensures { (bytes : List ℕ) (log : List Entry) → log_of (journal_of many_nodes bytes) ≡ Ok log → IsPromised (journal_of many_nodes bytes) log }
{}
