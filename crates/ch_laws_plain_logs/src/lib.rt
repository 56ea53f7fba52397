//! The laws of plain logs: what follows from the kinds of a log's entries alone, with no world in it.
//!
//! No code: laws as clauses of empty functions, over the model below. An entry is plain where it marks a line, where a
//! process that no spawn made is made, says a message to a process, gets one, takes one from its mailbox or ends, and where a
//! socket is dialed, joined, taken, fed, written to, up or left. So nothing reconnects, opens a port, watches, is doomed,
//! asks, has a name, is shut, goes down, breaks, or settles there.
#![tactic(auto)]

ghost use Rattle.std.specs.Prelude.{◌≡◌, ℕ, Bool, false, not, ◌&&◌, List, [], length, filter_map, slice_get, None, is_some, IsTrue};
ghost use Rattle.std.specs.List.{list_any};
ghost use Rattle.ch_ident.specs.Spelling.{message};
ghost use Rattle.ch_ident.specs.declared.identifier.Identifier.{Identifier};
ghost use Rattle.ch_ident.specs.declared.identifier.Identifier.TheVariants as identifiers;
ghost use Rattle.ch_ident.specs.declared.identifier.ProcessId.{ProcessId};
ghost use Rattle.ch_ident.specs.declared.node_message.NodeMessage.TheVariants.{Opening};
ghost use Rattle.ch_model.specs.declared.entry.Entry.{Entry};
ghost use Rattle.ch_model.specs.declared.line.Line.{Line};
ghost use Rattle.ch_model.specs.declared.name.End.{End};
ghost use Rattle.ch_model.specs.declared.name.ProcName.{ProcName};
ghost use Rattle.ch_model.specs.declared.name.RefName.{RefName};
ghost use Rattle.ch_model.specs.declared.name.SockName.{SockName};
ghost use Rattle.ch_model.specs.declared.name.TargetName.{TargetName};
ghost use Rattle.ch_model.specs.declared.name.TargetName.TheVariants as targets;
ghost use Rattle.ch_model.specs.Accounts.{IsBroughtAbout};
ghost use Rattle.ch_model.specs.AccountsFrames.{datas, is_user_data, user_data, said_between, next_carried};
ghost use Rattle.ch_model.specs.AccountsItems.{first_payload, opens_nodes};
ghost use Rattle.ch_model.specs.Declarations.{peer, is_node, is_stranger};
ghost use Rattle.ch_model.specs.Delivery.{gets_the_said, gets_no_earlier};
ghost use Rattle.ch_model.specs.Epochs.{says_in, breaks, epoch_of, unbroken, is_broken, is_said_in_epoch};
ghost use Rattle.ch_model.specs.Life.{ends, is_made, is_over, is_shut, is_doomed, is_live};
ghost use Rattle.ch_model.specs.Links.{risen_with, up_sockets, dials_to, has_dialed};
ghost use Rattle.ch_model.specs.Logs.{each, never, collected, from_first};
ghost use Rattle.ch_model.specs.Marks.{line_of_reference};
ghost use Rattle.ch_model.specs.Names.{stands, names_of};
ghost use Rattle.ch_model.specs.Watches.{watch_of};
ghost use Rattle.ch_laws_plain_logs.specs.Plain.{IsPlain, HasPlainLines, WritesNoNodes, writes_pairs, HasNoNodePayloads, said_by, PlainlyLawful};

/// A log of plain entries is lawful as far as their kinds tell: in its breaks, notices, references and names, of which it
/// has none; in what is whole where it settles, as it never does; and in its reconnects, dooms, ports and ends that go down. Where the
/// lines of its journal are plain too, no feeding stands in a settle, and no line waits for a settled. Where no payload that is written
/// opens a connection from node to node, all that such connections bring about has its cause: nothing is brought about so.
///
/// The rest of what is promised of a log isn't said here, since it needs more than kinds: which number a message or a process
/// has, that what is got was said before, who lives, what a mailbox has, what ends a process, when a socket may be dialed or
/// be up, which answer each line has, and what the bytes are that are written and fed.
pub fn plain_logs_are_lawful()
    ensures kinds { (journal : List Line) (log : List Entry) → HasPlainLines journal → IsPlain log → PlainlyLawful journal log }
    ensures of_nodes { (journal : List Line) (log : List Entry) → IsPlain log → WritesNoNodes journal log → IsBroughtAbout journal log }
{}

/// What a log of plain entries hasn't: no link breaks, so that no pair of processes waits to be reconnected; each pair is in
/// its first epoch; nothing is watched; no name stands; no node is shut; and no process is doomed.
pub fn plain_logs_have_no_more()
    ensures breaks { (log : List Entry) (x y : List ℕ) → IsPlain log → list_any (breaks x y) log ≡ false }
    ensures waits { (log : List Entry) (p : ProcName) (d : TargetName) → IsPlain log → is_broken log p d ≡ false }
    ensures epochs { (log : List Entry) (p q : ProcName) → IsPlain log → epoch_of log p (targets.Process q) ≡ 0 }
    ensures watches { (log : List Entry) (m : RefName) → IsPlain log → watch_of log m ≡ None }
    ensures names { (log : List Entry) (x w : List ℕ) → IsPlain log → stands log x w ≡ None }
    ensures named { (log : List Entry) (p : ProcName) → IsPlain log → names_of p log ≡ [] }
    ensures shut { (log : List Entry) (x : List ℕ) → IsPlain log → is_shut log x ≡ false }
    ensures doomed { (log : List Entry) (p : ProcName) → IsPlain log → is_doomed log p ≡ false }
{}

/// So a log of plain entries is looked through simply: an epoch stands unbroken from its first message on; who has ended is
/// over, and who was made and hasn't lives; a node has dialed whom it ever dialed, and is up where it ever came up; and what
/// one node says to another counts from the log's beginning.
pub fn plain_logs_read_simply()
    ensures unbroken { (log : List Entry) (p : ProcName) (d : TargetName) (e : ℕ) → IsPlain log → unbroken log p d e ≡ from_first (says_in p d e) log }
    ensures over { (log : List Entry) (p : ProcName) → IsPlain log → is_over log p ≡ list_any (ends p) log }
    ensures lives { (log : List Entry) (p : ProcName) → IsPlain log → is_live log p ≡ (is_made log p && not (list_any (ends p) log)) }
    ensures dialed { (log : List Entry) (x y : List ℕ) → IsPlain log → has_dialed log x y ≡ list_any (dials_to x y) log }
    ensures up { (log : List Entry) (x y : List ℕ) → IsPlain log → up_sockets log x y ≡ filter_map (risen_with x y) log }
    ensures said { (log : List Entry) (x y : List ℕ) → IsPlain log → said_between log x y ≡ filter_map (said_by x y) log }
    ensures carried { (journal : List Line) (log : List Entry) (x y : List ℕ) → IsPlain log → next_carried journal log x y ≡ slice_get (filter_map (said_by x y) log) (length (collected never (user_data journal x y) log)) }
{}

/// Where each message is said in its pair's epoch, and got after it was said, the epochs of a log of plain entries are got
/// in order: there is but the first of each pair.
pub fn plain_epochs_are_in_order()
    ensures { (log : List Entry) → IsPlain log → IsTrue (each is_said_in_epoch log) → IsTrue (each gets_the_said log) → IsTrue (each gets_no_earlier log) }
{}

/// A journal of plain lines declares nodes alone, and no stranger; and none of its lines takes a reference.
pub fn plain_journals_declare_nodes()
    ensures nodes { (journal : List Line) (x : List ℕ) → HasPlainLines journal → is_node journal x ≡ is_some (peer journal x) }
    ensures strangers { (journal : List Line) (x : List ℕ) → HasPlainLines journal → is_stranger journal x ≡ false }
    ensures references { (journal : List Line) (log : List Entry) (m : RefName) → HasPlainLines journal → line_of_reference journal log m ≡ None }
{}

/// Where no payload that is written opens a connection from node to node, none of the payloads of any end does that is the
/// first under its id: each connection there is a pair's, and what follows its first payload is a user's.
pub fn no_connection_is_of_nodes()
    ensures opened { (journal : List Line) (log : List Entry) → WritesNoNodes journal log → HasNoNodePayloads journal log }
    ensures users { (journal : List Line) (log : List Entry) (sock : SockName) (end : End) (d : ℕ × List ℕ) → WritesNoNodes journal log → is_user_data journal log sock end d ≡ is_some (first_payload d.0 (datas log sock end)) }
{}

/// The opening of a process's connection is never that of a connection from node to node, whatever their names. So where each
/// payload that is the first under its id opens the connection of a pair that has said something, none opens one of nodes.
pub fn pairs_open_no_nodes()
    ensures openings { (journal : List Line) (x y payload : List ℕ) (from : ProcessId) (to : Identifier) → payload ≡ message (Opening (identifiers.Process from) to) → opens_nodes journal x y payload ≡ false }
    ensures written { (journal : List Line) (log : List Entry) → IsTrue (each (writes_pairs journal) log) → WritesNoNodes journal log }
{}
