//! Laws of what plain nodes make of what their host has read: where each frame that is read goes on a plain stream, a connection that
//! is created is opened by the next frame, and so at most one opening of each peer is unread, and that is known by its id.
//!
//! No code: definitions, and laws as clauses of empty functions, over the model below. What a host posts as it reads is said below;
//! that each world of plain nodes reads so is proved above.

ghost use Rattle.std.specs.Prelude.{◌≡◌, ℕ, List, [], ◌∷◌, find, Option, None, Ok};
ghost use Rattle.ch_base.specs.declared.address.Address.{Address};
ghost use Rattle.ch_base.specs.declared.event.Event.TheVariants.{ConnectionOpened, Received, ConnectionClosed, ConnectionLost};
ghost use Rattle.ch_base.specs.declared.event.Why.{Why};
ghost use Rattle.ch_wire.specs.declared.frame.Frame.{Frame};
ghost use Rattle.ch_wire.specs.declared.frame.Frame.TheVariants.{Created, Closed, Data};
ghost use Rattle.ch_light.specs.Ids.{created_of, closed_of, conn_of};
ghost use Rattle.ch_light.specs.declared.Connection.{Connection};
ghost use Rattle.ch_model.specs.declared.act.Act.{Act};
ghost use Rattle.ch_model.specs.declared.local.LocalEntry.{LocalEntry};
ghost use Rattle.ch_model.specs.declared.step.Step.{Step};
ghost use Rattle.ch_model.specs.CellSteps.{steps_on};
ghost use Rattle.ch_model.specs.HostItems.{next_arrival};
ghost use Rattle.ch_model.specs.HostState.{HostState};
ghost use Rattle.ch_model.specs.Node.{node_event};
ghost use Rattle.ch_model.specs.NodeState.{NodeState};
ghost use Rattle.ch_model.specs.WorldState.{Cell};
ghost use Rattle.ch_laws_connections.specs.Arrivals.{made_at, Meets, CellMeets};
ghost use Rattle.ch_laws_calls.specs.FitsTurns.{bytes_at};
ghost use Rattle.ch_laws_links.specs.Naming.{IsNaming};
ghost use Rattle.ch_laws_writes.specs.Dues.{due_at};
ghost use Rattle.ch_laws_plain.specs.Plain.{is_unread_of, id_for, NodeIsPlain, CellIsPlain};
ghost use Rattle.ch_laws_plain.specs.Streams.{PlainStep};
ghost use Rattle.ch_laws_plain.specs.Talks.{HostIsPlain};
ghost use Rattle.ch_laws_plain.specs.Turns.{WriterPlain};
ghost use Rattle.ch_laws_plain.specs.ReadsReading.{AreOfNone, Reading};
ghost use Rattle.ch_laws_plain.specs.MeetsReads.{ReadsPlain};
ghost use Rattle.ch_laws_plain.specs.HearsTurns.{Moves, IsAfter, HearsPlainly, ReadTurn};

/// What is plain behind frames that were read. Whatever they were, it is plain where no opening is unread; where they are of no
/// connection, it is plain as it was before; and behind one that creates a connection it is plain where that has yet to be opened.
pub fn streams_are_read_on()
    ensures whatever { (before : Option ℕ) (read : List Frame) → Moves before read None }
    ensures of_none { (before : Option ℕ) (read : List Frame) → AreOfNone read → Moves before read before }
    ensures after { (before next : Option ℕ) (read : List Frame) → IsAfter read next → Moves before read next }
{}

/// What a plain node makes of a frame that its host has read, where that frame is a step of a plain stream behind the opening that
/// is unread of the peer, if one is, and the node keeps what the host had created. A connection comes only where no opening of
/// the peer is unread: then its own is, under the id that was created. One goes where none is unread, and none is after it. A
/// payload is the opening of the one that is unread, and binds it, or comes where none is; and none is after it. Where the link
/// fails none is left. In all cases the node does nothing, what it tells is plain, and of other peers all is as it was.
pub fn nodes_hear_plainly()
    ensures comes { (host : HostState) (end : ℕ) (peer : Address) (node : NodeState) → NodeIsPlain node → Meets host end node.arrived → (id : ℕ) (created : List Connection) (next_id : Option ℕ) (done : List Act) (next : NodeState) → created_of (made_at host end peer) id (next_arrival host end) ≡ Ok created
        → PlainStep (id_for (made_at host end peer) (find (is_unread_of peer) node.arrived)) (Created id) next_id → node_event node (ConnectionOpened (next_arrival host end) peer) ≡ Ok (done, next) → HearsPlainly peer created (Created id ∷ []) node done next }
    ensures goes { (host : HostState) (end : ℕ) (peer : Address) (node : NodeState) → NodeIsPlain node → Meets host end node.arrived → (id conn : ℕ) (created : List Connection) (next_id : Option ℕ) (done : List Act) (next : NodeState) → closed_of (made_at host end peer) id ≡ Ok (conn, created)
        → PlainStep (id_for (made_at host end peer) (find (is_unread_of peer) node.arrived)) (Closed id) next_id → node_event node (ConnectionClosed conn) ≡ Ok (done, next) → HearsPlainly peer created (Closed id ∷ []) node done next }
    ensures payload { (host : HostState) (end : ℕ) (peer : Address) (node : NodeState) → NodeIsPlain node → Meets host end node.arrived → (id conn : ℕ) (payload : List ℕ) → conn_of (made_at host end peer) id ≡ Ok conn → (done : List Act) (next : NodeState) → node_event node (Received conn payload) ≡ Ok (done, next)
        → (next_id : Option ℕ) → PlainStep (id_for (made_at host end peer) (find (is_unread_of peer) node.arrived)) (Data id payload) next_id → HearsPlainly peer (made_at host end peer) (Data id payload ∷ []) node done next }
    ensures lost { (peer : Address) (why : Why) (created : List Connection) (read : List Frame) (node : NodeState) (done : List Act) (next : NodeState) → NodeIsPlain node → node_event node (ConnectionLost peer why) ≡ Ok (done, next) → HearsPlainly peer created read node done next }
{}

/// A turn of a cell whose host has read an item, or to which the input of a socket has ended. Whatever is read at its ends is the
/// beginning of a plain stream; the host is plain after it, and has written plain streams; its links and ends name each other before
/// and after; and the nodes keep what it had created. Then all steps are told but the event that was posted, and beside them plain
/// notes alone; what is unread at each end is a plain stream still, behind the opening that is unread then, if one is; and the cell is
/// plain.
pub fn turns_read_plainly()
    ensures { (own : ℕ → Address) (cell : Cell) (done : List Step) (host : HostState) (told : List LocalEntry) (after : Cell) → IsNaming cell.host → IsNaming host → CellIsPlain cell → CellMeets cell → HostIsPlain host → ReadsPlain cell → ((n : ℕ) → WriterPlain own (due_at cell.host n) (bytes_at n done))
        → Reading cell.host done host → steps_on done (record cell { host = host }) ≡ Ok (told, after) → ReadTurn own cell done host told after }
{}
