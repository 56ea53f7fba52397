//! The laws of pairs: of which two nodes a socket's opener has its end, and that of a pair's dials one at most stands.
//!
//! No code: laws as clauses of empty functions, over the model below. That hosts and worlds agree on the ends, what links and
//! sockets say of each other, and what the log tells of them, are laws of the crates below.
#![tactic(auto)]

ghost use Rattle.std.specs.Prelude.{◌≡◌, ℕ, Bool, List, [], ◌∷◌, find, is_some, slice_get, false, true, Some, Ok};
ghost use Rattle.ch_base.specs.declared.address.Address.{Address};
ghost use Rattle.ch_link.specs.declared.LinkState.TheVariants.{Dialing, Up};
ghost use Rattle.ch_model.specs.declared.entry.Entry.{Entry};
ghost use Rattle.ch_model.specs.declared.line.Line.{Line};
ghost use Rattle.ch_model.specs.declared.name.End.TheVariants.{O};
ghost use Rattle.ch_model.specs.declared.name.SockName.{SockName};
ghost use Rattle.ch_model.specs.HostState.{Socket};
ghost use Rattle.ch_model.specs.HostSteps.{is_socket, link_with, own_address};
ghost use Rattle.ch_model.specs.Journal.{journal_of};
ghost use Rattle.ch_model.specs.LinesBuilt.{many_nodes};
ghost use Rattle.ch_model.specs.Links.{is_closed};
ghost use Rattle.ch_model.specs.World.{names_of, world_new, log_from};
ghost use Rattle.ch_model.specs.WorldSockets.{is_socket_named, find_end};
ghost use Rattle.ch_model.specs.WorldState.{Cell, WorldSocket, World};
ghost use Rattle.ch_laws_bytes.specs.Scene.{address_b, scene};
ghost use Rattle.ch_laws_many.specs.ManyLines.{AreNamedApart};
ghost use Rattle.ch_laws_pairs.specs.Dials.{IsBetweenNames};
ghost use Rattle.ch_laws_pairs.specs.Scenes.{askers_in};
ghost use Rattle.ch_laws_pairs.specs.Users.{IsUsedAs, IsCalled};

/// After any lines of any journal, settling included, the opener's end of each socket has its user at its host, however the
/// end stands: an endpoint with a peer, whose own address is called as the opener in the socket's name, and whose peer is called
/// as the target there. In the scene of a request on its way the opener's user is the first endpoint, with the other node.
pub fn openers_have_users()
    ensures law { (journal lines : List Line) (log : List Entry) (world : World) (s : SockName) (socket : WorldSocket) (place n : ℕ) (cell : Cell × ℕ) → log_from (world_new journal) lines ≡ Ok (log, world) → find (is_socket_named s) world.sockets ≡ Some socket
        → socket.o.cell ≡ Some place → socket.o.number ≡ Some n → slice_get world.cells place ≡ Some cell → (held : Socket) × (find (is_socket n) cell.0.host.sockets ≡ Some held) × IsUsedAs (own_address cell.0.host) world.names s held }
    ensures such { askers_in (log_from (world_new scene) scene) ≡ Some (0, address_b) ∷ [] }
{}

/// So a link that dials names the opener's end of a socket of the world, and one that is up on an opener's end names it
/// too: its endpoint's own address is called as the opener in that socket's name, and its peer as the target.
pub fn links_name_openers()
    ensures dialing { (journal lines : List Line) (log : List Entry) (world : World) (place : ℕ) (cell : Cell × ℕ) (end : ℕ) (peer : Address) (n : ℕ) → log_from (world_new journal) lines ≡ Ok (log, world) → slice_get world.cells place ≡ Some cell
        → (link_with cell.0.host end peer).state ≡ Dialing n → (s : SockName) × (find_end place n world.sockets ≡ Some (s, O)) × IsCalled (own_address cell.0.host) world.names s end peer }
    ensures up { (journal lines : List Line) (log : List Entry) (world : World) (place : ℕ) (cell : Cell × ℕ) (end : ℕ) (peer : Address) (n : ℕ) (probed : Bool) (s : SockName) → log_from (world_new journal) lines ≡ Ok (log, world) → slice_get world.cells place ≡ Some cell
        → (link_with cell.0.host end peer).state ≡ Up n probed → find_end place n world.sockets ≡ Some (s, O) → IsCalled (own_address cell.0.host) world.names s end peer }
{}

/// Of the sockets of one opener to one target, whose names aren't empty, the log leaves one at most unclosed at its opener's end:
/// as long as a node dials a peer, or is up with it on a socket that it dialed, all its other dials to it are closed. So it is after
/// any lines of any journal that declares no name twice, settling included; nothing is said of strangers' sockets.
/// In a journal that the grammar of many nodes reads, of whatever bytes, it is so of all sockets: each is a host's.
pub fn one_dial_stands()
    ensures law { (journal lines : List Line) (log : List Entry) (world : World) (s t : SockName) (a b : WorldSocket) → log_from (world_new journal) lines ≡ Ok (log, world) → AreNamedApart (names_of journal) → IsBetweenNames s → t.from ≡ s.from → t.to ≡ s.to
        → find (is_socket_named s) world.sockets ≡ Some a → find (is_socket_named t) world.sockets ≡ Some b → is_some a.o.cell ≡ true → is_some b.o.cell ≡ true → is_closed log s O ≡ false → is_closed log t O ≡ false → s ≡ t }
    ensures many { (bytes : List ℕ) (log : List Entry) (world : World) (s t : SockName) (a b : WorldSocket) → log_from (world_new (journal_of many_nodes bytes)) (journal_of many_nodes bytes) ≡ Ok (log, world) → IsBetweenNames s → t.from ≡ s.from → t.to ≡ s.to
        → find (is_socket_named s) world.sockets ≡ Some a → find (is_socket_named t) world.sockets ≡ Some b → is_closed log s O ≡ false → is_closed log t O ≡ false → s ≡ t }
{}
