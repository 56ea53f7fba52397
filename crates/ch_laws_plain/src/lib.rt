//! Laws of plain nodes: in a journal of many nodes no node sends a message to a node, but processes to processes alone.
//!
//! A node opens a connection only for a message of a process, and tells at once between which processes it goes. So in each
//! stream of frames a connection that is created is opened by the very next frame, from a process to a process: the stream is
//! plain. Here it is said what is asked of hosts, cells and worlds for that, and proved for the host that writes, for the ends
//! of sockets, and for the connections whose opening isn't read yet.
//!
//! No code: definitions, and laws as clauses of empty functions, over the model below.
#![tactic(auto)]

pub mod asks;
pub mod hears;
pub mod lines;
pub mod meets;
pub mod reads;

ghost use Rattle.std.specs.Prelude.{◌≡◌, ◌≤◌, ℕ, false, List, [], ◌∷◌, ◌++◌, map, find, slice_get, slice_set, Some, None, Ok};
ghost use Rattle.ch_base.specs.declared.address.Address.{Address};
ghost use Rattle.ch_wire.specs.declared.frame.Frame.{Frame};
ghost use Rattle.ch_wire.specs.declared.frame.Frame.TheVariants.{Created, Data};
ghost use Rattle.ch_light.specs.Ids.{id_of, created_of, conn_of};
ghost use Rattle.ch_light.specs.declared.Connection.{Connection};
ghost use Rattle.ch_model.specs.declared.act.Act.{Act};
ghost use Rattle.ch_model.specs.declared.entry.Entry.{Entry};
ghost use Rattle.ch_model.specs.declared.line.Line.{Line};
ghost use Rattle.ch_model.specs.declared.local.LocalEntry.{LocalEntry};
ghost use Rattle.ch_model.specs.declared.name.End.{End};
ghost use Rattle.ch_model.specs.declared.name.SockName.{SockName};
ghost use Rattle.ch_model.specs.declared.step.Step.{Step};
ghost use Rattle.ch_model.specs.declared.step.Step.TheVariants.{Dial};
ghost use Rattle.ch_model.specs.CellSteps.{is_at, with_node, acts_on};
ghost use Rattle.ch_model.specs.Host.{host_next};
ghost use Rattle.ch_model.specs.HostState.{HostState};
ghost use Rattle.ch_model.specs.NodeArrivals.{rebound};
ghost use Rattle.ch_model.specs.NodeState.{NodeState, Bound, Unread, Arrived};
ghost use Rattle.ch_model.specs.World.{world_new};
ghost use Rattle.ch_model.specs.WorldState.{Cell, WorldSocket, World};
ghost use Rattle.ch_laws_bytes.proofs.Event.{Flowing};
ghost use Rattle.ch_laws_bytes.proofs.Lines.{own_of};
ghost use Rattle.ch_laws_connections.specs.Fits.{FitsAs};
ghost use Rattle.ch_laws_connections.specs.Senders.{sender_of};
ghost use Rattle.ch_laws_connections.specs.Tables.{LinksApart, open_in};
ghost use Rattle.ch_laws_ends.proofs.Told.{Sure};
ghost use Rattle.ch_laws_calls.proofs.FitsSockets.{WasThere};
ghost use Rattle.ch_laws_calls.specs.FitsFit.{MayAskWell};
ghost use Rattle.ch_laws_calls.specs.FitsTurns.{bytes_at, NoDials};
ghost use Rattle.ch_laws_links.specs.Naming.{IsNaming};
ghost use Rattle.ch_laws_log.specs.HostEnds.{steps_in};
ghost use Rattle.ch_laws_plain.specs.Acts.{AreShort, AskedTurn};
ghost use Rattle.ch_laws_plain.specs.Plain.{is_unread, is_unread_of, unread_from, id_for, CellIsPlain, EndIsPlain, WorldIsPlain};
ghost use Rattle.ch_laws_plain.specs.Streams.{IsPlainStream};
ghost use Rattle.ch_laws_plain.specs.Talks.{HostIsPlain};
ghost use Rattle.ch_laws_plain.specs.Turns.{WriterPlain, CellCarries, DialedWell};
ghost use Rattle.ch_laws_plain_nodes.specs.Acts.{ArePlain};
ghost use Rattle.ch_laws_plain_nodes.specs.Plain.{IsPlain, IsPlainOpening};
ghost use Rattle.ch_laws_calls.specs.Turns.{told_on};
ghost use Rattle.ch_laws_writes.specs.Dues.{due_at};
ghost use Rattle.ch_laws_writes.specs.Orderly.{IsOrderly};

/// A plain stream behind another is one. Such is a connection that is created and opened, with a message on it.
pub fn streams_are_plain()
    ensures behind { (xs ys : List Frame) → IsPlainStream xs → IsPlainStream ys → IsPlainStream (xs ++ ys) }
    ensures opened { (id on : ℕ) (first payload : List ℕ) → IsPlainOpening first → IsPlainStream (Created id ∷ Data id first ∷ Data on payload ∷ []) }
{}

/// A turn of a plain node that asks its host: all its acts, one after another, where each opening fits in a frame. What waits for
/// each link is a plain stream still; what is written at each end of the host is one, of items that are due there; and nothing
/// is read. The node agrees with its host before on what it has open, and what has arrived there stands as it did.
pub fn asked_in_plain_streams()
    ensures { (own : ℕ → Address) (at : Address) (end k : ℕ) (cell after : Cell) (node next : NodeState) (done : List Act) (told : List LocalEntry) → find (is_at end) cell.nodes ≡ Some (k, node) → next.arrived ≡ node.arrived → IsPlain next → ArePlain at done → AreShort done → LinksApart cell.host.links
        → FitsAs false cell.host end done (sender_of next) → IsOrderly own cell.host → CellIsPlain cell → acts_on end done (with_node end next cell) ≡ Ok (told, after) → AskedTurn own cell (steps_in told) after }
{}

/// A host that reads an item, whatever it is, is plain still, and what it writes at each end is a plain stream: an answer, what has
/// waited for a link that comes up, a probe or its acknowledgement.
pub fn items_answered_in_plain_streams()
    ensures { (own : ℕ → Address) (host after : HostState) (told : List Step) → IsNaming host → IsOrderly own host → HostIsPlain host → host_next host ≡ Ok (Some told, after) → HostIsPlain after × ((n : ℕ) → WriterPlain own (due_at host n) (bytes_at n told)) }
{}

/// A world is plain where each cell is, and what is unread at each end of a socket is a plain stream, behind a connection that was
/// created and isn't opened yet, if there is one. So it is where nothing has happened. It stays so at each end that was there before
/// a turn of a cell which carries the streams of its host on, and in the whole world where the host dials nothing in it, or does
/// nothing to sockets but dial one.
pub fn worlds_stay_plain()
    ensures fresh { (journal : List Line) → WorldIsPlain journal (world_new journal) }
    ensures end { (journal : List Line) (log : List Entry) (world after : World) (place : ℕ) (cell now : Cell × ℕ) (told : List Step) → Sure journal log world → Flowing (own_of journal) world → WorldIsPlain journal world → slice_get world.cells place ≡ Some cell → after.cells ≡ slice_set world.cells place now → after.names ≡ world.names
        → CellCarries (own_of journal place) cell.0 told now.0 → (s : SockName) (socket : WorldSocket) (e : End) → WasThere place told world s socket → MayAskWell journal after socket → EndIsPlain after socket e }
    ensures turn { (journal : List Line) (log : List Entry) (world : World) (place : ℕ) (cell : Cell × ℕ) (told : List LocalEntry) (after : Cell) → Sure journal log world → Flowing (own_of journal) world → WorldIsPlain journal world → slice_get world.cells place ≡ Some cell → NoDials (steps_in told)
        → CellCarries (own_of journal place) cell.0 (steps_in told) after → CellIsPlain after → WorldIsPlain journal (told_on place cell after told world).1 }
    ensures dial { (journal : List Line) (log : List Entry) (world : World) (place : ℕ) (cell : Cell × ℕ) (told : List LocalEntry) (after : Cell) (sock end : ℕ) (peer : Address) → Sure journal log world → Flowing (own_of journal) world → WorldIsPlain journal world → slice_get world.cells place ≡ Some cell
        → steps_in told ≡ Dial sock end peer ∷ [] → CellCarries (own_of journal place) cell.0 (steps_in told) after → DialedWell sock after → WorldIsPlain journal (told_on place cell after told world).1 }
{}

/// A connection that comes to a node to which no opening of its peer is unread is the one whose opening is, under the id that was
/// created; others' are as they were. The number that its host finds under that id is its own. Once it is bound, no opening of
/// the peer is unread.
pub fn openings_are_read()
    ensures comes { (table new : List Connection) (id number : ℕ) (peer : Address) (arrived : List Arrived) → created_of table id number ≡ Ok new → open_in table number ≡ 0 → find (is_unread_of peer) arrived ≡ None
        → id_for new (find (is_unread_of peer) (arrived ++ record { conn = number; peer = peer; bound = Unread } ∷ [])) ≡ Some id }
    ensures number { (table : List Connection) (conn number id : ℕ) → id_of table conn ≡ Some id → conn_of table id ≡ Ok number → number ≡ conn }
    ensures bound { (conn : ℕ) (bound : Bound) (peer : Address) (xs : List Arrived) (arrived : Arrived) → is_unread bound ≡ false → find (is_unread_of peer) xs ≡ Some arrived → arrived.conn ≡ conn → unread_from peer xs ≤ 1 → find (is_unread_of peer) (map (rebound conn bound) xs) ≡ None }
{}
