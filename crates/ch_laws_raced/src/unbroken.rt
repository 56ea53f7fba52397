//! The laws of unbroken links: in the log of a journal of many nodes, between which nothing is lost, no link breaks and no end that
//! was up is closed.
//!
//! No code: laws as clauses of empty functions, over the model below. The crate's root has that each two nodes of such a journal are a
//! pair that ch_race's machine reaches; the machine says that nothing breaks there without a cause; and here it is said of the log.

ghost use Rattle.std.specs.Prelude.{◌≡◌, ◌++◌, ℕ, true, List, [], find, slice_get, Some, None, Ok};
ghost use Rattle.ch_base.specs.declared.address.Address.{Address};
ghost use Rattle.ch_model.specs.declared.entry.Entry.{Entry};
ghost use Rattle.ch_model.specs.declared.line.Line.{Line};
ghost use Rattle.ch_model.specs.declared.name.End.{End};
ghost use Rattle.ch_model.specs.declared.step.SocketEvent.TheVariants as sockets;
ghost use Rattle.ch_model.specs.declared.step.Step.{Step};
ghost use Rattle.ch_model.specs.declared.step.Weight.{Weight};
ghost use Rattle.ch_model.specs.Host.{host_on, host_next};
ghost use Rattle.ch_model.specs.HostCalls.{host_connect, host_send, host_close};
ghost use Rattle.ch_model.specs.HostState.{Socket, HostState};
ghost use Rattle.ch_model.specs.HostSteps.{is_socket};
ghost use Rattle.ch_model.specs.Journal.{journal_of};
ghost use Rattle.ch_model.specs.LinesBuilt.{many_nodes};
ghost use Rattle.ch_model.specs.World.{names_of, world_new, log_from};
ghost use Rattle.ch_model.specs.WorldLines.{can_feed};
ghost use Rattle.ch_model.specs.WorldSockets.{end_of};
ghost use Rattle.ch_model.specs.WorldState.{Cell, WorldSocket, World};
ghost use Rattle.ch_laws_many.proofs.Reached.{IsJournal};
ghost use Rattle.ch_laws_bytes.specs.Streams.{AreAddresses};
ghost use Rattle.ch_laws_calls.specs.Calls.{IsIn, IsHeldBy, IsCalled, AllRead, KeepsCalls, Anything};
ghost use Rattle.ch_laws_calls.specs.Peers.{Peers};
ghost use Rattle.ch_laws_raced.specs.UnbrokenBreaks.{NoBreaks, calm};
ghost use Rattle.ch_laws_raced.specs.UnbrokenGiven.{Given};

/// Of any host, few calls may tell that a link has failed, that a node's connections are lost, or that an end that was up is closed:
/// no call of an endpoint for a connection does, nor a socket that is joined, comes, or is fed bytes, nor the end of input of a
/// socket that is for no link.
pub fn few_calls_break()
    ensures connect { (host after : HostState) (end : ℕ) (peer : Address) (conn : ℕ) (told : List Step) → host_connect host end peer conn ≡ Ok (told, after) → calm told ≡ true }
    ensures send { (host after : HostState) (end conn : ℕ) (payload : List ℕ) (weight : Weight) (told : List Step) → host_send host end conn payload weight ≡ Ok (told, after) → calm told ≡ true }
    ensures close { (host after : HostState) (end conn : ℕ) (told : List Step) → host_close host end conn ≡ Ok (told, after) → calm told ≡ true }
    ensures joined { (host after : HostState) (sock : ℕ) (told : List Step) → host_on host (sockets.Joined sock) ≡ Ok (told, after) → calm told ≡ true }
    ensures came { (host after : HostState) (sock : ℕ) (peer_host : List ℕ) (told : List Step) → host_on host (sockets.Came sock peer_host) ≡ Ok (told, after) → calm told ≡ true }
    ensures fed { (host after : HostState) (sock : ℕ) (bytes : List ℕ) (told : List Step) → host_on host (sockets.Fed sock bytes) ≡ Ok (told, after) → calm told ≡ true }
    ensures ended { (host after : HostState) (sock : ℕ) (told : List Step) → ((known : Socket) → find (is_socket sock) host.sockets ≡ Some known → known.user ≡ None) → host_on host (sockets.Ended sock) ≡ Ok (told, after) → calm told ≡ true }
{}

/// Nor do the others in a world of a journal of many nodes, where hosts and world agree, each two nodes are seen as a pair that comes
/// about by moves that may happen, what is unread fits what is open, and each dial is between two nodes: an item that a host reads
/// makes no link fail, and the end of input comes only to an end that is for no link.
pub fn hosts_stay_calm()
    ensures next { (journal : List Line) → IsJournal journal → AreAddresses (names_of journal) → (log : List Entry) (world : World) → Given journal log world → (place : ℕ) (cell : Cell × ℕ) (told : List Step) (after : HostState) → slice_get world.cells place ≡ Some cell
        → host_next cell.0.host ≡ Ok (Some told, after) → calm told ≡ true }
    ensures ended { (journal : List Line) → IsJournal journal → AreAddresses (names_of journal) → (log : List Entry) (world : World) → Given journal log world → (socket : WorldSocket) (e : End) (place n : ℕ) (cell : Cell × ℕ) (told : List Step) (after : HostState) → IsIn socket world → can_feed e socket ≡ true
        → (end_of e socket).unread ≡ [] → IsHeldBy place n (end_of e socket) → IsCalled world place cell (sockets.Ended n) told after → AllRead world → calm told ≡ true }
{}

/// Each thing that happens in a journal of many nodes keeps it that no link has failed and no end that was up was closed, where hosts
/// and world agree, each two nodes are seen as a pair that comes about by moves that may happen, what is unread fits what is open, and
/// each dial is between two nodes. So it is of the log of each front of such a journal, of whatever bytes, as long as all dials are
/// between two of its nodes.
pub fn nothing_breaks()
    ensures kept { (journal : List Line) → IsJournal journal → AreAddresses (names_of journal) → KeepsCalls journal (Given journal) Anything (λ log world. NoBreaks log) }
    ensures many { (bytes : List ℕ) → KeepsCalls (journal_of many_nodes bytes) (Given (journal_of many_nodes bytes)) Anything (λ log world. NoBreaks log) }
    ensures first { NoBreaks [] }
    ensures whole { (bytes : List ℕ) (front rest : List Line) → front ++ rest ≡ journal_of many_nodes bytes → (log : List Entry) (world : World) → log_from (world_new (journal_of many_nodes bytes)) front ≡ Ok (log, world)
        → Peers (journal_of many_nodes bytes) log world → NoBreaks log }
{}
