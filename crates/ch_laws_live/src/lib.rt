//! The laws of live sockets: in the log of a journal of many nodes at most one socket of each pair of nodes is live, and nodes
//! come up and dial where they are down.
//!
//! No code: laws as clauses of empty functions, over the model below. What is so of the worlds of such a journal (ch_laws_calls'
//! `Sound`, `Shown`, `Raced` and `Peers`) is proved in crates of its own; the machine of ch_race says that a pair has one live
//! socket; and here it is said of the log, entry by entry.
#![tactic(auto)]

ghost use Rattle.std.specs.Prelude.{◌≡◌, ℕ, List, [], true, Some, Ok};
ghost use Rattle.ch_base.specs.declared.address.Address.{Address};
ghost use Rattle.ch_model.specs.declared.line.Line.{Line};
ghost use Rattle.ch_model.specs.declared.step.SocketEvent.{SocketEvent};
ghost use Rattle.ch_model.specs.declared.step.Step.{Step};
ghost use Rattle.ch_model.specs.declared.step.Weight.{Weight};
ghost use Rattle.ch_model.specs.Host.{host_on, host_next};
ghost use Rattle.ch_model.specs.HostCalls.{host_connect, host_send, host_close};
ghost use Rattle.ch_model.specs.HostState.{HostState};
ghost use Rattle.ch_model.specs.Journal.{journal_of};
ghost use Rattle.ch_model.specs.LinesBuilt.{many_nodes};
ghost use Rattle.ch_model.specs.World.{names_of};
ghost use Rattle.ch_laws_many.proofs.Reached.{IsJournal};
ghost use Rattle.ch_laws_bytes.specs.Streams.{AreAddresses};
ghost use Rattle.ch_laws_links.specs.Naming.{IsNaming};
ghost use Rattle.ch_laws_calls.specs.Calls.{KeepsCalls};
ghost use Rattle.ch_laws_live.specs.Accepts.{AllAccept, IsAnswered};
ghost use Rattle.ch_laws_live.specs.Lives.{Given, IsLively};
ghost use Rattle.ch_laws_live.specs.Turns.{starts_last};

/// In one call of a host ends are closed first, and at most one comes up, or is dialed, last: after it no end is closed, none comes
/// up, and none is dialed. So the log at the end of the call says what it said as that end came up.
pub fn starts_come_last()
    ensures on { (host after : HostState) (event : SocketEvent) (told : List Step) → host_on host event ≡ Ok (told, after) → starts_last told ≡ true }
    ensures next { (host after : HostState) (told : List Step) → host_next host ≡ Ok (Some told, after) → starts_last told ≡ true }
    ensures connect { (host after : HostState) (end : ℕ) (peer : Address) (conn : ℕ) (told : List Step) → host_connect host end peer conn ≡ Ok (told, after) → starts_last told ≡ true }
    ensures send { (host after : HostState) (end conn : ℕ) (payload : List ℕ) (weight : Weight) (told : List Step) → host_send host end conn payload weight ≡ Ok (told, after) → starts_last told ≡ true }
    ensures close { (host after : HostState) (end conn : ℕ) (told : List Step) → host_close host end conn ≡ Ok (told, after) → starts_last told ≡ true }
{}

/// A link that comes up where it was asked accepts next, on the same socket. Any other comes up on an open socket of which the host
/// expects an answer; and only an item that is read brings a link up.
pub fn links_accept_next()
    ensures next { (host after : HostState) (told : List Step) → IsNaming host → host_next host ≡ Ok (Some told, after) → AllAccept (IsAnswered host) told }
    ensures on { (host after : HostState) (event : SocketEvent) (told : List Step) → host_on host event ≡ Ok (told, after) → AllAccept (λ n. ⊥) told }
    ensures connect { (host after : HostState) (end : ℕ) (peer : Address) (conn : ℕ) (told : List Step) → host_connect host end peer conn ≡ Ok (told, after) → AllAccept (λ n. ⊥) told }
    ensures send { (host after : HostState) (end conn : ℕ) (payload : List ℕ) (weight : Weight) (told : List Step) → host_send host end conn payload weight ≡ Ok (told, after) → AllAccept (λ n. ⊥) told }
    ensures close { (host after : HostState) (end conn : ℕ) (told : List Step) → host_close host end conn ≡ Ok (told, after) → AllAccept (λ n. ⊥) told }
{}

/// Each thing that happens in a journal of many nodes keeps this of the log, where hosts and world agree, each two nodes are seen as
/// a pair that comes about by moves that may happen, and each dial is between two nodes. At each moment at most one socket of
/// each pair of nodes is live; no link is accepted while one of the two is up on another socket, unless the opener has left; a node
/// comes up on a socket while it is up on no other of the pair, and dials a peer that it isn't up with; a target that comes up accepts
/// next; and an opener that came up has a target that did, or is closed. It holds of an empty log.
pub fn one_socket_lives()
    ensures kept { (journal : List Line) → IsJournal journal → AreAddresses (names_of journal) → KeepsCalls journal (Given journal) (Given journal) (λ log world. IsLively log) }
    ensures many { (bytes : List ℕ) → KeepsCalls (journal_of many_nodes bytes) (Given (journal_of many_nodes bytes)) (Given (journal_of many_nodes bytes)) (λ log world. IsLively log) }
    ensures first { IsLively [] }
{}
