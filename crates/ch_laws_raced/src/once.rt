//! The laws of one dial, and of frames over links: in a journal of many nodes, between which nothing is lost, a node dials a peer once, and
//! what a host reads on the socket of a link was written by a node that came up there.
//!
//! No code: laws as clauses of empty functions, over the model below. `unbroken` has that no link of such a journal breaks; so a
//! link that has begun isn't idle again, and a host dials only for a link that is idle. Where a frame is unread at an end that is up,
//! the end across is up by the machine of ch_race; and here it is said of the log.

ghost use Rattle.std.specs.Prelude.{◌≡◌, ◌++◌, ℕ, Bool, true, List, [], find, slice_get, Option, Some, Ok, IsTrue};
ghost use Rattle.ch_base.specs.declared.address.Address.{Address};
ghost use Rattle.ch_wire.specs.declared.frame.Frame.{Frame};
ghost use Rattle.ch_reader.specs.declared.item.Front.TheVariants.{Whole};
ghost use Rattle.ch_reader.specs.declared.item.Item.TheVariants as items;
ghost use Rattle.ch_link.specs.declared.LinkState.TheVariants.{Up};
ghost use Rattle.ch_model.specs.declared.entry.Entry.{Entry};
ghost use Rattle.ch_model.specs.declared.entry.Entry.TheVariants as entries;
ghost use Rattle.ch_model.specs.declared.line.Line.{Line};
ghost use Rattle.ch_model.specs.declared.name.ProcName.{ProcName};
ghost use Rattle.ch_model.specs.declared.name.TargetName.{TargetName};
ghost use Rattle.ch_model.specs.declared.step.SocketEvent.{SocketEvent};
ghost use Rattle.ch_model.specs.declared.step.Step.{Step};
ghost use Rattle.ch_model.specs.declared.step.Weight.{Weight};
ghost use Rattle.ch_model.specs.Delivery.{hears_from, gets_over_link};
ghost use Rattle.ch_model.specs.Host.{front_of, first_ready, host_on, host_next};
ghost use Rattle.ch_model.specs.HostCalls.{host_connect, host_send, host_close};
ghost use Rattle.ch_model.specs.HostState.{Socket, HostState};
ghost use Rattle.ch_model.specs.HostSteps.{is_socket};
ghost use Rattle.ch_model.specs.Journal.{journal_of};
ghost use Rattle.ch_model.specs.LinesBuilt.{many_nodes};
ghost use Rattle.ch_model.specs.Links.{dials_once};
ghost use Rattle.ch_model.specs.Logs.{each};
ghost use Rattle.ch_model.specs.Same.{node_of};
ghost use Rattle.ch_model.specs.World.{names_of, world_new, log_from};
ghost use Rattle.ch_model.specs.WorldState.{Cell, World};
ghost use Rattle.ch_race.specs.Pair.{Side, other};
ghost use Rattle.ch_laws_many.proofs.Reached.{IsJournal};
ghost use Rattle.ch_laws_bytes.specs.Streams.{AreAddresses};
ghost use Rattle.ch_laws_links.specs.Naming.{IsNaming};
ghost use Rattle.ch_laws_race.specs.Scene.{Party, host_of, link_of};
ghost use Rattle.ch_laws_calls.specs.Calls.{KeepsCalls};
ghost use Rattle.ch_laws_calls.specs.Peers.{Peers};
ghost use Rattle.ch_laws_calls.specs.Scenes.{IsPairOf, scene_of};
ghost use Rattle.ch_laws_raced.specs.UnbrokenBreaks.{NoBreaks, calm};
ghost use Rattle.ch_laws_raced.specs.UnbrokenGiven.{Given};
ghost use Rattle.ch_laws_raced.specs.OnceBegun.{GoesOn};
ghost use Rattle.ch_laws_raced.specs.OnceOnce.{Unbroken, DialsOnce};

/// In a call of a host that tells of no break no link that has begun is idle after it: it dials, waits for the peer's dial, or is up.
/// And a host dials only for a link that is idle before the call, and isn't after it.
pub fn links_go_on()
    ensures on { (host after : HostState) (event : SocketEvent) (told : List Step) → host_on host event ≡ Ok (told, after) → calm told ≡ true → GoesOn host told after }
    ensures next { (host after : HostState) (told : List Step) → host_next host ≡ Ok (Some told, after) → calm told ≡ true → GoesOn host told after }
    ensures connect { (host after : HostState) (end : ℕ) (peer : Address) (conn : ℕ) (told : List Step) → host_connect host end peer conn ≡ Ok (told, after) → calm told ≡ true → GoesOn host told after }
    ensures send { (host after : HostState) (end conn : ℕ) (payload : List ℕ) (weight : Weight) (told : List Step) → IsNaming host → host_send host end conn payload weight ≡ Ok (told, after) → calm told ≡ true → GoesOn host told after }
    ensures close { (host after : HostState) (end conn : ℕ) (told : List Step) → IsNaming host → host_close host end conn ≡ Ok (told, after) → calm told ≡ true → GoesOn host told after }
{}

/// Each thing that happens in a journal of many nodes keeps it that each node dials a peer once, and that the link of a node that has
/// dialed isn't idle, where hosts and world agree, each two nodes are seen as a pair that comes about by moves that may happen, and
/// nothing has broken. So it is of the log of each front of such a journal, of whatever bytes, as long as all dials are between two of
/// its nodes.
pub fn dials_happen_once()
    ensures kept { (journal : List Line) → IsJournal journal → AreAddresses (names_of journal) → KeepsCalls journal (Unbroken journal) (Unbroken journal) (DialsOnce journal) }
    ensures many { (bytes : List ℕ) → KeepsCalls (journal_of many_nodes bytes) (Unbroken (journal_of many_nodes bytes)) (Unbroken (journal_of many_nodes bytes)) (DialsOnce (journal_of many_nodes bytes)) }
    ensures first { (journal : List Line) → DialsOnce journal [] (world_new journal) }
    ensures whole { (bytes : List ℕ) (front rest : List Line) → front ++ rest ≡ journal_of many_nodes bytes → (log : List Entry) (world : World) → log_from (world_new (journal_of many_nodes bytes)) front ≡ Ok (log, world)
        → Peers (journal_of many_nodes bytes) log world → IsTrue (each dials_once log) }
{}

/// In a world of a journal of many nodes, where hosts and world agree, and each two nodes are seen as a pair that comes about by moves
/// that may happen: where a frame stands at the front of what a node's host has on the socket that its link with another is up on, the
/// log tells that the node is up on a socket on which the other has come up. So it is of the frame that the host is to read next; it
/// stays so as long as nothing breaks; and a message that is got then, of the other, is got over the link of the two.
pub fn frames_come_over_links()
    ensures read { (journal : List Line) (log : List Entry) (world : World) → Given journal log world → (party : Side → Party) → IsPairOf journal party → (y : Side) (n : ℕ) (probed : Bool) (known : Socket) (frame : Frame) → (link_of (scene_of party world) y).state ≡ Up n probed
        → find (is_socket n) (host_of (scene_of party world) y).sockets ≡ Some known → (front_of known).0 ≡ Whole (items.Frame frame) → hears_from log (party y).name (party (other y)).name ≡ true }
    ensures next { (journal : List Line) (log : List Entry) (world : World) → Given journal log world → (party : Side → Party) → IsPairOf journal party → (x : Side) (cell : Cell × ℕ) (n : ℕ) (probed : Bool) (known : Socket) (frame : Frame) → slice_get world.cells (party (other x)).place ≡ Some cell
        → (link_of (scene_of party world) (other x)).state ≡ Up n probed → first_ready cell.0.host.sockets ≡ Some known → known.number ≡ n → (front_of known).0 ≡ Whole (items.Frame frame) → hears_from log (party (other x)).name (party x).name ≡ true }
    ensures still { (log more : List Entry) (y x : List ℕ) → NoBreaks more → hears_from log y x ≡ true → hears_from (log ++ more) y x ≡ true }
    ensures got { (journal : List Line) (log : List Entry) (world : World) → Given journal log world → (party : Side → Party) → IsPairOf journal party → (x : Side) (cell : Cell × ℕ) (n : ℕ) (probed : Bool) (known : Socket) (frame : Frame) → slice_get world.cells (party (other x)).place ≡ Some cell
        → (link_of (scene_of party world) (other x)).state ≡ Up n probed → first_ready cell.0.host.sockets ≡ Some known → known.number ≡ n → (front_of known).0 ≡ Whole (items.Frame frame) → (more : List Entry) → NoBreaks more → (by : ProcName) (to : TargetName) (epoch index : ℕ) (receiver : Option ProcName)
        → by.node ≡ (party x).name → node_of to ≡ (party (other x)).name → gets_over_link (log ++ more) (entries.Got by to epoch index receiver) ≡ true }
{}
