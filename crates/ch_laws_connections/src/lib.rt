//! The laws of a node and its host: they agree on connections, and the host refuses nothing that its node asks.
//!
//! No code: laws as clauses of empty functions, over the model below. The laws of items at a host, of worlds and of their
//! logs stand beside.
#![tactic(auto)]

ghost use Rattle.std.specs.Prelude.{◌≡◌, ◌≤◌, ◌<◌, ◌*◌, ℕ, List, [], ◌∷◌, length, nat_lt, Some, None, Ok, Err, find, is_some, true, false};
ghost use Rattle.ch_base.specs.declared.address.Address.{Address};
ghost use Rattle.ch_light.specs.Ids.{id_of};
ghost use Rattle.ch_light.specs.declared.TheConstants.{MOST_IDS};
ghost use Rattle.ch_model.specs.Cell.{cell_new, cell_step};
ghost use Rattle.ch_model.specs.CellSteps.{is_at};
ghost use Rattle.ch_model.specs.HostCalls.{open_endpoint, carries, host_send};
ghost use Rattle.ch_model.specs.HostSteps.{link_with};
ghost use Rattle.ch_model.specs.NodeConnections.{conn_to};
ghost use Rattle.ch_model.specs.NodeState.{NodeState};
ghost use Rattle.ch_model.specs.World.{world_new, log_from};
ghost use Rattle.ch_model.specs.WorldState.{Cell, World};
ghost use Rattle.ch_model.specs.declared.entry.Entry.{Entry};
ghost use Rattle.ch_model.specs.declared.entry.Verdict.{Verdict};
ghost use Rattle.ch_model.specs.declared.line.Line.{Line};
ghost use Rattle.ch_model.specs.declared.local.LocalEntry.{LocalEntry};
ghost use Rattle.ch_model.specs.declared.local.LocalEvent.{LocalEvent};
ghost use Rattle.ch_laws_connections.specs.Arrivals.{CellMeets};
ghost use Rattle.ch_laws_connections.specs.Fits.{CellHolds, AllCells};
ghost use Rattle.ch_laws_connections.specs.Senders.{sender_of, open_at};
ghost use Rattle.ch_laws_connections.specs.Taken.{EventTaken};
ghost use Rattle.ch_laws_connections.specs.Scenes.{here, there, exit_acts, exit_told, connected};
ghost use Rattle.ch_ident.specs.declared.identifier.Identifier.TheVariants.{Node};
ghost use Rattle.ch_ident.specs.declared.node_message.NodeMessage.TheVariants.{Opening};
ghost use Rattle.ch_ident.specs.Spelling.{message};
ghost use Rattle.ch_model.specs.declared.act.Act.TheVariants.{Open, Put};
ghost use Rattle.ch_model.specs.declared.step.EndError.TheVariants.{PayloadLong};
ghost use Rattle.ch_model.specs.declared.step.Weight.TheVariants.{Free, Counted};
ghost use Rattle.ch_wire.specs.declared.TheConstants.{MOST_PAYLOAD_BYTES};

/// A node and its host agree on the connections that the node has opened. A connection that a pair has open, or that is
/// the node's own to another node, is given on the host's link of the node's endpoint with that peer, there and on no other
/// link; and each connection that a link of the endpoint has given is one of these. Their numbers are even, below twice
/// the count of connections that the node has opened, and all different. The endpoint of a node that is shut is closed,
/// and nothing is given there.
///
/// So it is in a cell where nothing has happened, after each event that a cell hears, and in every cell of a world after
/// any lines of any journal.
pub fn given_as_opened()
    ensures fresh { (host : List ℕ) (port : ℕ) (circle : List (List ℕ)) (nodes : List (ℕ × ℕ × List (List ℕ))) → CellHolds (cell_new host port circle nodes) }
    ensures step { (cell after : Cell) (event : LocalEvent) (done : Verdict × List LocalEntry) → CellHolds cell → cell_step cell event ≡ Ok (done, after) → CellHolds after }
    ensures worlds { (journal lines : List Line) (log : List Entry) (world : World) → log_from (world_new journal) lines ≡ Ok (log, world) → AllCells CellHolds world.cells }
{}

/// In such a cell the connection to a peer has an id on the link with that peer exactly where the node has it open to
/// that peer, and the node has it open once and to one peer alone.
pub fn open_where_given()
    ensures given { (cell : Cell) (end conn : ℕ) (peer : Address) (there : ℕ × NodeState) → CellHolds cell → find (is_at end) cell.nodes ≡ Some there → there.1.is_shut ≡ false → 1 ≤ open_at (sender_of there.1) conn peer
        → is_some (id_of (link_with cell.host end peer).given conn) ≡ true }
    ensures opened { (cell : Cell) (end conn : ℕ) (peer : Address) (there : ℕ × NodeState) → CellHolds cell → find (is_at end) cell.nodes ≡ Some there → is_some (id_of (link_with cell.host end peer).given conn) ≡ true
        → open_at (sender_of there.1) conn peer ≡ 1 }
    ensures one_peer { (cell : Cell) (end conn : ℕ) (peer other : Address) (there : ℕ × NodeState) → CellHolds cell → find (is_at end) cell.nodes ≡ Some there → is_some (id_of (link_with cell.host end peer).given conn) ≡ true
        → is_some (id_of (link_with cell.host end other).given conn) ≡ true → peer ≡ other }
{}

/// A node and its host agree on the connections that have arrived, too. Each that arrived at a node, and that it keeps, is
/// created on the host's link of the node's endpoint with that peer, and each that is created there the node keeps; it is
/// there once, and on no other link. Their numbers are odd, and of those that the endpoint has counted. So it is of a
/// node that isn't shut, in a cell where nothing has happened, after each event of a cell in which they agree on both,
/// and in every cell of a world after any lines of any journal.
pub fn kept_as_created()
    ensures fresh { (host : List ℕ) (port : ℕ) (circle : List (List ℕ)) (nodes : List (ℕ × ℕ × List (List ℕ))) → CellMeets (cell_new host port circle nodes) }
    ensures step { (cell after : Cell) (event : LocalEvent) (done : Verdict × List LocalEntry) → CellHolds cell → CellMeets cell → cell_step cell event ≡ Ok (done, after) → CellMeets after }
    ensures worlds { (journal lines : List Line) (log : List Entry) (world : World) → log_from (world_new journal) lines ≡ Ok (log, world) → AllCells CellMeets world.cells }
{}

/// In such a cell a node that isn't shut finds what it is to ask for: its endpoint is open; the link that carries a connection
/// that it has open is that with the connection's peer; no link carries the number that it draws next; and where it
/// has no own connection to a peer yet, there is an id left for one.
pub fn found_by_the_host()
    ensures endpoint { (cell : Cell) (end : ℕ) (there : ℕ × NodeState) → CellHolds cell → find (is_at end) cell.nodes ≡ Some there → there.1.is_shut ≡ false → open_endpoint cell.host end ≡ Ok end }
    ensures carried { (cell : Cell) (end conn : ℕ) (peer : Address) (there : ℕ × NodeState) → CellHolds cell → find (is_at end) cell.nodes ≡ Some there → there.1.is_shut ≡ false → 1 ≤ open_at (sender_of there.1) conn peer
        → find (carries end conn) cell.host.links ≡ Some (link_with cell.host end peer) }
    ensures uncarried { (cell : Cell) (end : ℕ) (there : ℕ × NodeState) → CellHolds cell → find (is_at end) cell.nodes ≡ Some there → find (carries end (2 * there.1.opened)) cell.host.links ≡ None }
    ensures id_left { (cell : Cell) (end : ℕ) (peer : Address) (there : ℕ × NodeState) → CellHolds cell → find (is_at end) cell.nodes ≡ Some there → there.1.is_shut ≡ false → conn_to there.1 peer ≡ None
        → length (link_with cell.host end peer).given < MOST_IDS }
{}

/// The host refuses nothing that a node asks of it, as long as the node isn't shut: each connection that the node opens gets
/// an id; each that it closes or sends on is open there; a payload that is counted finds room; and a node that is shut closes
/// its endpoint. What a node asks stops where a count stands at its type's last value, and then the whole event does. One
/// refusal is left: a payload longer than a frame may be, which a node writes of a text or a name that no command bounds.
///
/// So it is act by act in all that a cell makes of an event, with each item that is handled, if node and host agree
/// before it; and they do in every cell of a world after any lines of any journal.
pub fn nothing_refused()
    ensures event { (cell : Cell) (event : LocalEvent) → CellHolds cell → EventTaken cell event }
    ensures worlds { (journal lines : List Line) (log : List Entry) (world : World) → log_from (world_new journal) lines ≡ Ok (log, world) → AllCells (λ cell. (event : LocalEvent) → EventTaken cell event) world.cells }
{}

/// The refusal that is left, in a scene: a node's only process asks for an exit at another node. Whatever the text is, the
/// node opens its connection and puts the message on it; and the host refuses the message where it is longer than a frame
/// may be.
pub fn long_text_is_refused()
    ensures acts { (text : List ℕ) → exit_acts text ≡ Open 0 there ∷ Put 0 (message (Opening (Node here) (Node there))) Free ∷ Put 0 (exit_told text) (Counted None) ∷ [] }
    ensures refused { (text : List ℕ) → nat_lt MOST_PAYLOAD_BYTES (length (exit_told text)) ≡ true → host_send connected 0 0 (exit_told text) (Counted None) ≡ Err PayloadLong }
{}
