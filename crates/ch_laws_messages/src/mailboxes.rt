//! The laws of mailboxes: what stands in the mailboxes of the processes of many nodes is what has entered them by the log and wasn't
//! taken, of each mark in order.
//!
//! Within a node a message is in its receiver's mailbox as soon as it is said. From another node it comes in a frame that a host
//! reads, and is in the mailbox as it is told to be got; that it is the message that was said is proved elsewhere, and is given
//! here (`specs/Said.antt`). So what a process takes is the first message of the mark that is left, and a line that takes is
//! answered as the log shows.
//!
//! No code: definitions, and laws as clauses of empty functions, over the model below.

ghost use Rattle.std.specs.Prelude.{◌≡◌, ℕ, List, [], ◌++◌, filter_map, find, slice_get, Some, Ok, IsTrue};
ghost use Rattle.ch_static.specs.declared.command.Command.{Command};
ghost use Rattle.ch_model.specs.declared.act.Act.{Act};
ghost use Rattle.ch_model.specs.declared.entry.Entry.{Entry};
ghost use Rattle.ch_model.specs.declared.line.Line.{Line};
ghost use Rattle.ch_model.specs.declared.line.What.{What};
ghost use Rattle.ch_model.specs.declared.local.LocalEntry.{LocalEntry};
ghost use Rattle.ch_model.specs.declared.name.ProcName.{ProcName};
ghost use Rattle.ch_model.specs.declared.name.TargetName.TheVariants as names;
ghost use Rattle.ch_model.specs.declared.step.Step.{Step};
ghost use Rattle.ch_model.specs.AccountsFrames.{Saying};
ghost use Rattle.ch_model.specs.Cell.{room_for};
ghost use Rattle.ch_model.specs.CellSteps.{is_at, with_node, acts_on, steps_on};
ghost use Rattle.ch_model.specs.Epochs.{has_next_index};
ghost use Rattle.ch_model.specs.Host.{host_next};
ghost use Rattle.ch_model.specs.HostState.{HostState};
ghost use Rattle.ch_model.specs.Logs.{each};
ghost use Rattle.ch_model.specs.Mailboxes.{message_of};
ghost use Rattle.ch_model.specs.Node.{node_command, target_node};
ghost use Rattle.ch_model.specs.NodeState.{NodeState};
ghost use Rattle.ch_model.specs.World.{names_of, world_new, log_of};
ghost use Rattle.ch_model.specs.WorldState.{Cell, World};
ghost use Rattle.ch_laws_calls.specs.Calls.{Both, with_host};
ghost use Rattle.ch_laws_many.specs.ManyLines.{AreNamedApart};
ghost use Rattle.ch_laws_many.proofs.Reached.{IsJournal};
ghost use Rattle.ch_laws_plain_logs.specs.Plain.{said_by};
ghost use Rattle.ch_laws_calls.specs.Turns.{told_on, IsAsked, end_in, KeepsTurns};
ghost use Rattle.ch_laws_messages.specs.MailAnswers.{is_answered_take};
ghost use Rattle.ch_laws_messages.specs.MailGiven.{Given, Follows, AtEachLine};
ghost use Rattle.ch_laws_messages.specs.MailMail.{AllMail, TakesFirst, GoesOn};
ghost use Rattle.ch_laws_messages.specs.MailSaid.{GotIsSaid, GotsAreSaid};

/// In a plain world, where hosts and world agree, what a process asks of its node goes on with what stands in mailboxes, as long as
/// messages are numbered as they come: one that is sent within the node is in its receiver's mailbox at once, and what is taken is
/// the first of its mark that was left. So does a turn in which a host reads an item, as long as what is got there is what was said.
pub fn mailboxes_go_on()
    ensures asked { (journal : List Line) → IsJournal journal → AreNamedApart (names_of journal) → (log : List Entry) (world : World) (what : What) (by : ProcName) (command : Command) (place : ℕ) (cell : Cell × ℕ) (number : ℕ) (node : NodeState) (acts : List Act) (next : NodeState) (told : List LocalEntry) (after : Cell) → IsAsked journal world what by command place
        → slice_get world.cells place ≡ Some cell → find (is_at (end_in world by)) cell.0.nodes ≡ Some (number, node) → node_command node by.counter command (room_for cell.0.host (end_in world by) node.own (target_node node by.counter command)) ≡ Ok (acts, next)
        → acts_on (end_in world by) acts (with_node (end_in world by) next cell.0) ≡ Ok (told, after) → Given journal log world → AllMail journal log world → Follows (log ++ (told_on place cell after told world).0) (told_on place cell after told world).1 → GoesOn journal log (told_on place cell after told world).0 (told_on place cell after told world).1 }
    ensures item { (journal : List Line) → IsJournal journal → AreNamedApart (names_of journal) → (log : List Entry) (world : World) (place : ℕ) (cell : Cell × ℕ) (steps : List Step) (host : HostState) (told : List LocalEntry) (after : Cell) → slice_get world.cells place ≡ Some cell → host_next cell.0.host ≡ Ok (Some steps, host) → steps_on steps (with_host cell host) ≡ Ok (told, after)
        → Given journal log world → AllMail journal log world → GotIsSaid log world cell steps (told_on place cell after told world).0 → GoesOn journal log (told_on place cell after told world).0 (told_on place cell after told world).1 }
{}

/// What stands in mailboxes is what has entered them by the log and wasn't taken: where nothing has happened, and turn by turn. So
/// each message that is taken is the first of its mark that is left, turn by turn.
pub fn mailboxes_stand_by_the_log()
    ensures fresh { (journal : List Line) → IsJournal journal → AreNamedApart (names_of journal) → AllMail journal [] (world_new journal) }
    ensures kept { (journal : List Line) → IsJournal journal → AreNamedApart (names_of journal) → GotsAreSaid (Given journal) Follows → KeepsTurns journal (Given journal) Follows (AllMail journal) }
    ensures takes { (journal : List Line) → IsJournal journal → AreNamedApart (names_of journal) → GotsAreSaid (Given journal) Follows → KeepsTurns journal (Both (Given journal) (AllMail journal)) Follows (TakesFirst journal) }
{}

/// A line by which a process takes a message is answered as the log before it shows, where mailboxes stand by the log after any first
/// lines: unknown where the process wasn't made, dead where it was doomed or is over, empty where no message of the mark is left,
/// and ok else.
pub fn takes_are_answered()
    ensures { (journal : List Line) → IsJournal journal → AreNamedApart (names_of journal) → AtEachLine journal → (log : List Entry) → log_of journal ≡ Ok log → IsTrue (each (is_answered_take journal) log) }
{}

/// What a node has said to a process of another is found again by its pair, epoch and index, where messages are numbered as they come:
/// no other has the same.
pub fn sayings_are_found()
    ensures { (x y : List ℕ) (log : List Entry) (n : ℕ) (s : Saying) (q : ProcName) → slice_get (filter_map (said_by x y) log) n ≡ Some s → s.to ≡ names.Process q → IsTrue (each has_next_index log)
        → message_of log s.by (names.Process q) s.epoch s.index ≡ Some (record { mark = s.mark; body = s.body }) }
{}
