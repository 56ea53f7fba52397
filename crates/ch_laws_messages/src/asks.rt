//! What a command makes a node write for another, where a process asks it: frames that have the places of the messages that they carry.
//!
//! A process sends to a process of another node or of its own, takes a message, or ends. Only the first writes payloads, and only
//! where its node's link with the other is up. What is known of what is said before and after that turn (`AllSay`) tells how many
//! sayings what was written carries; and that tells whether the message's connection was opened before, and so which place its frames have.
//!
//! No code: definitions, and laws as clauses of empty functions, over the model below.

ghost use Rattle.std.specs.Prelude.{◌≡◌, ℕ, List, [], ◌∷◌, ◌++◌, map, Ok};
ghost use Rattle.ch_base.specs.declared.address.Address.{Address};
ghost use Rattle.ch_model.specs.declared.act.Act.{Act};
ghost use Rattle.ch_model.specs.declared.act.Act.TheVariants.{Close};
ghost use Rattle.ch_model.specs.declared.line.Line.{Line};
ghost use Rattle.ch_model.specs.declared.local.LocalEntry.{LocalEntry};
ghost use Rattle.ch_model.specs.AccountsFrames.{Saying};
ghost use Rattle.ch_model.specs.CellSteps.{acts_on};
ghost use Rattle.ch_model.specs.WorldState.{Cell};
ghost use Rattle.ch_laws_calls.specs.FitsTurns.{NoDials};
ghost use Rattle.ch_laws_log.specs.HostEnds.{steps_in};
ghost use Rattle.ch_laws_plain.specs.Talks.{MaySpell};
ghost use Rattle.ch_laws_writes.specs.Orderly.{IsOrderly};
ghost use Rattle.ch_laws_peers.specs.Reads.{AreTruly};
ghost use Rattle.ch_laws_peers.specs.Standing.{IsOfNodes};
ghost use Rattle.ch_laws_peers.specs.Words.{Placed};
ghost use Rattle.ch_laws_messages.specs.WayAsked.{AsksTruly};
ghost use Rattle.ch_laws_messages.specs.WayGoes.{written_frames};
ghost use Rattle.ch_laws_messages.specs.SaidGoes.{bare};
ghost use Rattle.ch_laws_messages.specs.SaidPuts.{spelled};
ghost use Rattle.ch_laws_messages.specs.AsksDoes.{Does, AreBareSteps};
ghost use Rattle.ch_laws_messages.specs.AsksMessages.{IsMessage, CarriesAll};

/// What the acts of a node make of a host that is in order: it stays in order, and its steps tell how its ends stand, what it has read,
/// and that it writes what is due. Where connections are closed, nothing is dialed or read, and no payload is written.
pub fn hosts_do_what_acts_ask()
    ensures does { (own : ℕ → Address) (end : ℕ) (done : List Act) (cell : Cell) (told : List LocalEntry) (after : Cell) → IsOrderly own cell.host → acts_on end done cell ≡ Ok (told, after) → Does own cell.host (steps_in told) after.host }
    ensures closes { (own : ℕ → Address) (end : ℕ) (conns : List ℕ) (cell : Cell) (told : List LocalEntry) (after : Cell) → IsOrderly own cell.host → acts_on end (map (λ conn. Close conn) conns) cell ≡ Ok (told, after) → NoDials (steps_in told) × AreBareSteps (steps_in told) }
{}

/// Where what was written at an end carries all that was said, and with a message's frames behind it all that and the message, those
/// frames have the places that the sayings give them.
pub fn messages_have_their_places()
    ensures { (journal : List Line) (said : List Saying) (s : Saying) (wrote : List (List ℕ)) (new : List Placed) (id : ℕ) (opening : List ℕ) → IsMessage id opening s new → MaySpell (bare new) → CarriesAll journal said wrote → CarriesAll journal (said ++ s ∷ []) (wrote ++ spelled new)
        → AreTruly (said ++ s ∷ []) (written_frames said wrote ++ new) }
{}

/// In a journal of many nodes, what a command that is asked makes a host write has the places of what it carries, where all that was said
/// is carried before that turn and after it; and the host reads nothing in it, and dials at most one socket, which is new.
pub fn what_is_asked_is_written_truly()
    ensures { (journal : List Line) → IsOfNodes journal → AsksTruly journal }
{}
