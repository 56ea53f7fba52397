//! The laws of a whole world: what its lines leave as it was, and how its sockets go on.
//!
//! No code: laws as clauses of empty functions, over the model below. The code of a world stands above, which keeps its
//! sockets in a table.
#![tactic(auto)]

ghost use Rattle.std.specs.Prelude.{◌≡◌, ◌∷◌, ◌++◌, ℕ, List, [], Some, None, Ok, find};
ghost use Rattle.ch_base.specs.declared.address.Address.{Address};
ghost use Rattle.ch_model.specs.declared.entry.Entry.{Entry};
ghost use Rattle.ch_model.specs.declared.line.Line.{Line};
ghost use Rattle.ch_model.specs.declared.name.SockName.{SockName};
ghost use Rattle.ch_model.specs.WorldState.{WorldEnd, WorldSocket, World};
ghost use Rattle.ch_model.specs.WorldSockets.{is_socket_named, with_socket, new_socket, cell_of};
ghost use Rattle.ch_model.specs.World.{world_new, world_step, log_from};
ghost use Rattle.ch_laws_world.specs.Grows.{SocketGoes, SocketsGo, homes_of, Numbered, Grows};

/// Lines leave a world's names and strangers as they were, and each cell where it was, with the same nodes. Its sockets stay, each in its place and with its name, and new
/// ones come last. An end of a socket is pending, then open, then ended, and never goes back. The sockets of one opener
/// and target are numbered 0, 1, 2 and so on, in order.
pub fn a_world_grows()
    ensures new { (journal : List Line) → Numbered (world_new journal).sockets }
    ensures line { (world after : World) (line : Line) (entries : List Entry) → Numbered world.sockets → world_step world line ≡ Ok (entries, after) → Grows world after }
    ensures lines { (world after : World) (lines : List Line) (entries : List Entry) → Numbered world.sockets → log_from world lines ≡ Ok (entries, after) → Grows world after }
    ensures journal { (journal lines : List Line) (after : World) (entries : List Entry) → log_from (world_new journal) lines ≡ Ok (entries, after) → Grows (world_new journal) after }
{}

/// A socket's name is never lost: it stays found, as a socket that the one before went on to.
pub fn a_name_stays()
    ensures { (name : SockName) (socket : WorldSocket) (before after : List WorldSocket) → SocketsGo before after → find (is_socket_named name) before ≡ Some socket
        → (next : WorldSocket) × (find (is_socket_named name) after ≡ Some next) × SocketGoes socket next }
{}

/// No two sockets have one name: a new one comes last, as no other has its name.
pub fn a_new_socket_comes_last()
    ensures { (world : World) (from to from_host : List ℕ) (opener : WorldEnd) (address : Address) → Numbered world.sockets
        → (with_socket (new_socket world from to from_host opener address) world).sockets ≡ world.sockets ++ new_socket world from to from_host opener address ∷ [] }
{}

/// An address is at the same cell of a world for good.
pub fn an_address_stays()
    ensures { (address : Address) (before after : World) → homes_of after.cells ≡ homes_of before.cells → cell_of after address ≡ cell_of before address }
{}
