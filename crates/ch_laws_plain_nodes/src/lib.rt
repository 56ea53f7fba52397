//! The laws of plain nodes: what a node does whose processes send messages to processes, take them and end, and nothing
//! else, and what it makes of the events of its endpoint, as long as the other nodes are plain too.
//!
//! No code: laws as clauses of empty functions, over the model below. The laws of journals of plain nodes stand above.
#![tactic(auto)]

ghost use Rattle.std.specs.Prelude.{◌≡◌, ◌==◌, ◌*◌, ℕ, List, true, false, not, find, filter, Some, Ok, if◌then◌else◌};
ghost use Rattle.ch_base.specs.declared.address.Address.{Address};
ghost use Rattle.ch_base.specs.declared.event.Event.TheVariants.{ConnectionOpened, Received, ConnectionClosed, EndPointClosed, ConnectionLost};
ghost use Rattle.ch_base.specs.declared.event.Room.{Room};
ghost use Rattle.ch_base.specs.declared.event.Why.{Why};
ghost use Rattle.ch_ident.specs.declared.identifier.ProcessId.{ProcessId};
ghost use Rattle.ch_ident.specs.declared.identifier.Identifier.TheVariants as ends;
ghost use Rattle.ch_ident.specs.declared.message.Message.{Message};
ghost use Rattle.ch_ident.specs.declared.node_message.NodeMessage.TheVariants.{Opening};
ghost use Rattle.ch_ident.specs.Fits.{IsProcess};
ghost use Rattle.ch_ident.specs.Reading.{message_of};
ghost use Rattle.ch_ident.specs.Spelling.{message};
ghost use Rattle.ch_static.specs.declared.command.Command.{Command};
ghost use Rattle.ch_static.specs.declared.command.Command.TheVariants.{Send, Receive, End};
ghost use Rattle.ch_static.specs.declared.target.Target.TheVariants as targets;
ghost use Rattle.ch_watch.specs.Same.{same_node};
ghost use Rattle.ch_model.specs.declared.act.Act.{Act};
ghost use Rattle.ch_model.specs.Node.{node_new, node_make, node_command, node_event};
ghost use Rattle.ch_model.specs.NodeArrivals.{bound_by, bind, arrives, departs};
ghost use Rattle.ch_model.specs.NodeIds.{is_here, is_living};
ghost use Rattle.ch_model.specs.NodePairs.{lost_pairs};
ghost use Rattle.ch_model.specs.NodeState.{NodeState, Unread, Void, ToTarget, Arrived};
ghost use Rattle.ch_laws_plain_nodes.specs.Plain.{IsPlain, IsPlainCommand, IsPlainOpening, IsBound, IsRead};
ghost use Rattle.ch_laws_plain_nodes.specs.Acts.{AreNotes, OpensNone, OpensTo};
ghost use Rattle.ch_laws_plain_nodes.specs.Does.{Does, Tells, Hears, Makes, Takes, Ends, SendsAway, SendsHome, pair_between, sent_mark};

/// A node that has made no process is plain, and a plain node stays so as it makes a process, or does what a process
/// commands: to send to a process, to take a message, or to end. Each connection that it opens it tells at once between
/// which processes it goes, and all else that it sends on connections are messages of users. What has arrived there stands
/// as it did.
pub fn plain_nodes_stay()
    ensures fresh { (own : Address) (unique : ℕ) (labels : List (List ℕ)) → IsPlain (node_new own unique labels) }
    ensures make { (node after : NodeState) (done : List Act) → IsPlain node → node_make node ≡ Ok (done, after) → Makes node done after }
    ensures command { (node after : NodeState) (by : ℕ) (command : Command) (room : Room) (done : List Act) → IsPlain node → IsPlainCommand command → node_command node by command room ≡ Ok (done, after) → Does node done after }
{}

/// A message to a process opens one connection at most, and that to the process's node, where this is another. What is done
/// for it is told exactly: at another node by the mark of the pair before it, and at the node itself nothing but that it
/// was said and perhaps got. After it the pair's mark is the connection on which it went, or as it was; and no other pair
/// changes.
pub fn plain_nodes_send()
    ensures away { (node after : NodeState) (by : ℕ) (to : ProcessId) (said : Message) (room : Room) (done : List Act) → is_here node to.node ≡ false → node_command node by (Send (targets.Process to) said) room ≡ Ok (done, after) → SendsAway node by to said done after }
    ensures home { (node after : NodeState) (by : ℕ) (to : ProcessId) (said : Message) (room : Room) (done : List Act) → is_here node to.node ≡ true → node_command node by (Send (targets.Process to) said) room ≡ Ok (done, after) → SendsHome node by to said done after × AreNotes done }
    ensures opens { (node after : NodeState) (by : ℕ) (to : ProcessId) (said : Message) (room : Room) (done : List Act) → node_command node by (Send (targets.Process to) said) room ≡ Ok (done, after) → OpensTo node.own to.node done }
    ensures marked { (node after : NodeState) (by : ℕ) (to : ProcessId) (said : Message) (room : Room) (done : List Act) → is_here node to.node ≡ false → node_command node by (Send (targets.Process to) said) room ≡ Ok (done, after) → (pair_between after by to).mark ≡ sent_mark (2 * node.opened) (pair_between node by to).mark }
    ensures others { (node after : NodeState) (by other : ℕ) (to target : ProcessId) (said : Message) (room : Room) (done : List Act) → ((other ≡ by) × (target ≡ to) → ⊥) → node_command node by (Send (targets.Process to) said) room ≡ Ok (done, after) → pair_between after other target ≡ pair_between node other target }
    ensures unmarked { (node after : NodeState) (by : ℕ) (to : ProcessId) (said : Message) (room : Room) (done : List Act) → is_here node to.node ≡ true → node_command node by (Send (targets.Process to) said) room ≡ Ok (done, after) → (pair_between after by to).mark ≡ (pair_between node by to).mark }
{}

/// A process of a plain node takes a message, or ends: no connection is opened. An end closes the connections of the process,
/// in order of opening, and nobody is told of it.
pub fn plain_nodes_take_and_end()
    ensures takes { (node after : NodeState) (by : ℕ) (mark : List ℕ) (room : Room) (done : List Act) → IsPlain node → node_command node by (Receive mark) room ≡ Ok (done, after) → Takes node by done after × OpensNone done }
    ensures ends { (node after : NodeState) (by : ℕ) (room : Room) (done : List Act) → IsPlain node → node_command node by End room ≡ Ok (done, after) → Ends node by done after × OpensNone done }
{}

/// What a plain node makes of events. A connection that is opened arrives unread. An opening message between processes is the
/// first payload on it: it binds the connection, and nothing is told. Where the opening message was read, or there is no such
/// connection, a payload changes nothing but a mailbox. A connection that is closed is gone; and with a link that fails all
/// connections from that peer are, and the pairs to it are broken, and nobody is told.
pub fn plain_nodes_hear()
    ensures opened { (node after : NodeState) (conn : ℕ) (peer : Address) (done : List Act) → IsPlain node → node_event node (ConnectionOpened conn peer) ≡ Ok (done, after)
        → Hears (arrives node conn peer) done after }
    ensures opening { (node after : NodeState) (conn : ℕ) (payload : List ℕ) (arrived : Arrived) (done : List Act) → IsPlain node → find (λ known. known.conn == conn) node.arrived ≡ Some arrived → arrived.bound ≡ Unread → IsPlainOpening payload
        → node_event node (Received conn payload) ≡ Ok (done, after) → Hears (bind node conn (bound_by node arrived.peer (message_of payload))) done after }
    ensures payload { (node after : NodeState) (conn : ℕ) (payload : List ℕ) (done : List Act) → IsPlain node → IsRead (find (λ known. known.conn == conn) node.arrived) → node_event node (Received conn payload) ≡ Ok (done, after) → Tells node done after }
    ensures closed { (node after : NodeState) (conn : ℕ) (done : List Act) → IsPlain node → node_event node (ConnectionClosed conn) ≡ Ok (done, after) → Hears (departs node conn) done after }
    ensures shut { (node after : NodeState) (done : List Act) → IsPlain node → node_event node EndPointClosed ≡ Ok (done, after) → Hears node done after }
    ensures lost { (node after : NodeState) (peer : Address) (why : Why) (done : List Act) → IsPlain node → node_event node (ConnectionLost peer why) ≡ Ok (done, after)
        → Hears (record node { watches = after.watches; pairs = after.pairs; arrived = filter (λ arrived. not (same_node arrived.peer peer)) node.arrived }) done after × (lost_pairs peer node.pairs ≡ Ok after.pairs) }
{}

/// To what an opening message between processes binds a connection: to nothing, or to messages to a process. Where both
/// processes are in their rule, the one of the peer and the other of the node, it is the other, as long as that isn't over.
pub fn openings_bind()
    ensures plainly { (node : NodeState) (peer : Address) (payload : List ℕ) → IsPlainOpening payload → IsBound (bound_by node peer (message_of payload)) }
    ensures exactly { (node : NodeState) (peer : Address) (from to : ProcessId) → IsProcess from → IsProcess to → same_node from.node peer ≡ true → is_here node to.node ≡ true
        → bound_by node peer (message_of (message (Opening (ends.Process from) (ends.Process to)))) ≡ (if is_living node to then ToTarget from (targets.Process to) else Void) }
{}
