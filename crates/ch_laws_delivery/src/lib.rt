//! Messages between two nodes of a whole world, as passages of ch_delivery: what a node and its host do is the passage's
//! move.
//!
//! No code: definitions of the view, and laws as clauses of empty functions. The whole model stands below, and the
//! machine with its laws. What a node and its host do at one event is shown to be a move, event by event; and so are lines of
//! a world by which a process sends, reconnects, is over, takes a message, opens a port or is made. Of every other line that is
//! open, and that all that is asked here of a scene holds in a world.
#![tactic(auto)]

ghost use Rattle.std.specs.Prelude.{◌≡◌, ◌<◌, ℕ, Bool, true, false, is_some, List, [], ◌∷◌, Option, Ok};
ghost use Rattle.ch_base.specs.declared.event.Room.{Room};
ghost use Rattle.ch_base.specs.declared.event.Why.{Why};
ghost use Rattle.ch_base.specs.declared.event.Why.TheVariants.{Disconnect, NodeDown};
ghost use Rattle.ch_model.specs.NodePairs.{lost_pairs};
ghost use Rattle.ch_static.specs.declared.command.Command.TheVariants as commands;
ghost use Rattle.ch_static.specs.declared.command.Command.TheVariants.{Receive, Take, OpenPort, Register, Unregister};
ghost use Rattle.ch_model.specs.declared.act.Act.{Act};
ghost use Rattle.ch_model.specs.declared.note.Origin.{Origin};
ghost use Rattle.ch_model.specs.Node.{node_make, node_command};
ghost use Rattle.ch_model.specs.declared.line.What.{What};
ghost use Rattle.ch_model.specs.declared.line.What.TheVariants.{Proc, End};
ghost use Rattle.ch_model.specs.declared.local.LocalEvent.{LocalEvent};
ghost use Rattle.ch_model.specs.declared.local.LocalEvent.TheVariants.{Make, Command};
ghost use Rattle.ch_laws_delivery.specs.UpLines.{IsWrittenAt, AreSocketsApart, IsWrittenIn};
ghost use Rattle.ch_laws_delivery.specs.UpFirstLines.{IsWrittenFirstAt, IsWrittenFirstIn};
ghost use Rattle.ch_laws_delivery.specs.AgainLines.{IsReconnectedIn, IsClosedIn};
ghost use Rattle.ch_model.specs.NodeRoom.{acting};
ghost use Rattle.ch_laws_delivery.specs.OverLines.{IsLeftBy, IsOverIn};
ghost use Rattle.ch_laws_delivery.specs.QuietLines.{AreNotes, IsToldBy, IsToldIn, IsStoodIn};
ghost use Rattle.ch_model.specs.NodeLives.{make};
ghost use Rattle.ch_model.specs.NodeEnds.{over};
ghost use Rattle.ch_ident.specs.declared.reason.Reason.{Reason};
ghost use Rattle.ch_mail.specs.Mail.{life_of};
ghost use Rattle.ch_model.specs.NodeState.{NodeState, Pair};
ghost use Rattle.ch_ident.specs.declared.identifier.ProcessId.{ProcessId};
ghost use Rattle.ch_ident.specs.declared.message.Message.{Message};
ghost use Rattle.ch_laws_delivery.specs.Scene.{Name, Use, Scene};
ghost use Rattle.ch_laws_delivery.specs.View.{view, AreApart};
ghost use Rattle.ch_laws_delivery.specs.Sends.{SaysOnOpen, IsSaid};
ghost use Rattle.ch_laws_delivery.specs.FirstSends.{SaysFirst, IsSaidFirst};
ghost use Rattle.ch_laws_delivery.specs.UpSends.{SaysUp, IsWritten};
ghost use Rattle.ch_laws_delivery.specs.UpFirstSends.{SaysFirstUp, IsWrittenFirst};
ghost use Rattle.ch_laws_delivery.specs.UpReconnects.{ReconnectsUp, IsClosed};
ghost use Rattle.ch_laws_delivery.specs.Bares.{SaysBroken, IsWasted, ReconnectsBare, IsRenewed};
ghost use Rattle.ch_laws_delivery.specs.Quiets.{Keeps, kept_in};
ghost use Rattle.ch_laws_delivery.specs.Endings.{Ends, Parting, Parts, IsParted, EndsWith, IsOver};
ghost use Rattle.ch_model.specs.WorldState.{Cell, World};
ghost use Rattle.ch_model.specs.declared.name.ProcName.{ProcName};
ghost use Rattle.ch_model.specs.declared.name.TargetName.{TargetName};
ghost use Rattle.ch_laws_delivery.specs.Worlds.{Leg, IsSceneOf, NamesAreNew, IsLineOf, IsSentIn, IsSentFirstIn};
ghost use Rattle.ch_laws_delivery.specs.Cells.{Sends, SendsFirst, IsSentAt, IsSentFirstAt};
ghost use Rattle.ch_laws_delivery.specs.Shuts.{IsShut, IsShutThere, IsShutOff};
ghost use Rattle.ch_laws_delivery.specs.WorldRows.{cell_of_party, world_with, no_legs, the_process, the_target, acts_of_proc, after_proc, up_sockets, up_legs, both_up, fresh_legs, both_fresh};
ghost use Rattle.ch_laws_delivery.specs.EndingRows.{broken_once, the_parting, over_here, farewells_here};
ghost use Rattle.ch_laws_delivery.specs.Rises.{ComesUp, IsRisen, IsCome};
ghost use Rattle.ch_laws_delivery.specs.Losses.{Fails, LosesSocket, IsBroken};
ghost use Rattle.ch_laws_delivery.specs.Falls.{IsFallen};
ghost use Rattle.ch_laws_delivery.specs.Reconnects.{ReconnectsOpen, IsReconnected};
ghost use Rattle.ch_light.specs.declared.Connection.{Connection};
ghost use Rattle.ch_light.specs.Ids.{closed};
ghost use Rattle.ch_laws_delivery.specs.Receipts.{Reading, ReadsFirst, IsGot};
ghost use Rattle.ch_laws_delivery.specs.Openings.{Opening, OpensFirst, IsOpened};
ghost use Rattle.ch_laws_delivery.specs.Arrivals.{CreatesNext, IsCreated};
ghost use Rattle.ch_laws_delivery.specs.Drops.{Arriving, ArrivesFirst, ReadsForNobody, IsMissed, LeadsNowhere, IsDropped};
ghost use Rattle.ch_laws_delivery.specs.Standings.{Faithful, Ages, IsStood};
ghost use Rattle.ch_laws_delivery.specs.Closings.{Closing, ClosesFirst, IsDeparted};
ghost use Rattle.ch_delivery.specs.Passage.{Item, Created, Closed};
ghost use Rattle.ch_link.specs.declared.LinkIn.{LinkIn};
ghost use Rattle.ch_link.specs.declared.LinkIn.TheVariants.{Asked, Answered, Gone, EndClosed};
ghost use Rattle.ch_link.specs.declared.LinkAnswer.TheVariants.{Accepted};
ghost use Rattle.ch_link.specs.declared.LinkState.TheVariants.{Dialing, Up};
ghost use Rattle.ch_model.specs.NodeState.{Unread, Broken, ToNames};
ghost use Rattle.ch_mail.specs.declared.life.Life.TheVariants.{Live};
ghost use Rattle.ch_laws_delivery.specs.Receipts.{bound_as};
ghost use Rattle.ch_laws_delivery.specs.ReadingRows.{up_there, port_there, title, name_there, pair_to, pairs_to, up_to, opening_to, reading_to, arriving_on, over_there};
ghost use Rattle.ch_laws_delivery.specs.Rows.{here, there, only, the_name, the_names, hello, at_start, up_at_start, open_pair, said_once, up_with, message_item, bound_there, the_opening, the_reading, the_closing};

/// A message that a process says on an open connection, while the link isn't up, waits behind the others: the node tells
/// it and puts it, the host keeps it and dials where nobody does, and what is seen then is the passage after the move.
pub fn said_while_down()
    ensures { (names : List Name) → AreApart names → (scene : Scene) (c : ℕ) (name : Name) (conn id : ℕ) (said : Message) → SaysOnOpen names scene c name conn id said → IsSaid names scene c name conn said }
{}

/// The first message that a process says in an epoch, while the link isn't up, opens a connection and waits on it: the node
/// tells it and opens the connection, the host gives that the next id and keeps its opening message and the message, and
/// what is seen then, where the id is for this pair and epoch, is the passage after the move.
pub fn said_first_while_down()
    ensures { (names : List Name) → AreApart names → (scene : Scene) (c : ℕ) (name : Name) (conn : ℕ) (said : Message) → SaysFirst names scene c name conn said → IsSaidFirst names scene c name conn said }
{}

/// A pair with an open connection that is reconnected, while the link isn't up, closes it behind what waits: the node tells
/// the pair's next epoch and closes the connection, the host keeps the close, and what is seen then is the passage after
/// the move.
pub fn reconnected_while_down()
    ensures { (names : List Name) → AreApart names → (scene : Scene) (c : ℕ) (name : Name) (conn id : ℕ) (table : List Connection) → ReconnectsOpen names scene c name conn id table → IsReconnected names scene c name conn id table }
{}

/// A message that a process says on an open connection, while the link is up, is written on the socket at once: the node
/// tells it and puts it, the host writes its frame and nothing more, and what is seen then is the passage after the move.
pub fn said_while_up()
    ensures { (names : List Name) → AreApart names → (scene : Scene) (c : ℕ) (name : Name) (conn id sock : ℕ) (probed : Bool) (said : Message) → SaysUp names scene c name conn id sock probed said → IsWritten names scene c name conn id sock said }
{}

/// The first message that a process says in an epoch, while the link is up, creates a connection on the socket: the host
/// writes that it is created, its opening message and the message, in three calls of the node, and what is seen then, where
/// the id is for this pair and epoch, is the passage after the move.
pub fn said_first_while_up()
    ensures { (names : List Name) → AreApart names → (scene : Scene) (c : ℕ) (name : Name) (conn sock : ℕ) (probed : Bool) (said : Message) → SaysFirstUp names scene c name conn sock probed said → IsWrittenFirst names scene c name conn sock said }
{}

/// A pair with an open connection that is reconnected, while the link is up, closes it on the socket: the host writes the
/// close and nothing more, and what is seen then is the passage after the move.
pub fn reconnected_while_up()
    ensures { (names : List Name) → AreApart names → (scene : Scene) (c : ℕ) (name : Name) (conn id sock : ℕ) (probed : Bool) (table : List Connection) → ReconnectsUp names scene c name conn id sock probed table → IsClosed names scene c name conn id sock table }
{}

/// A message that a process says for a broken pair goes nowhere: the node tells it and does nothing more, and what is seen then
/// is the passage after the move.
pub fn said_on_a_broken_pair()
    ensures { (names : List Name) → AreApart names → (scene : Scene) (c : ℕ) (name : Name) (said : Message) → SaysBroken names scene c name → IsWasted names scene c name said }
{}

/// A pair with no open connection that is reconnected, be it broken or not, is told its next epoch and does nothing more, and
/// what is seen then is the passage after the move.
pub fn reconnected_without_a_connection()
    ensures { (names : List Name) → AreApart names → (scene : Scene) (c : ℕ) (name : Name) → ReconnectsBare names scene c name → IsRenewed names scene c name }
{}

/// Whatever the sending node does that changes no pair and ends no process: what is seen is as before.
pub fn unseen_at_the_sender()
    ensures { (names : List Name) (scene : Scene) (now : NodeState) → Keeps scene.from.node now → view names (kept_in scene now) ≡ view names scene }
{}

/// What concerns a process's own mail alone is nothing to see at the sending node, and at the receiving node is an event as
/// `stood_by_an_event` asks for: it takes a message from its mailbox or a port, or opens a port; and so is it that a process
/// is made, by a spawn or a line. The node tells it, and asks nothing of its host.
pub fn own_mail()
    ensures received { (node : NodeState) (by : ℕ) (mark : List ℕ) (room : Room) (did : List Act) (now : NodeState) → node_command node by (Receive mark) room ≡ Ok (did, now) → (Keeps node now × Ages node now) × AreNotes did }
    ensures taken { (node : NodeState) (by port : ℕ) (room : Room) (did : List Act) (now : NodeState) → node_command node by (Take port) room ≡ Ok (did, now) → (Keeps node now × Ages node now) × AreNotes did }
    ensures opened { (node : NodeState) (by : ℕ) (room : Room) (did : List Act) (now : NodeState) → node_command node by OpenPort room ≡ Ok (did, now) → (Keeps node now × Ages node now) × AreNotes did }
    ensures made { (node : NodeState) (origin : Option Origin) (args : List ℕ) (did : List Act) (now : NodeState) → make node origin args ≡ Ok (did, now) → (Keeps node now × Ages node now) × AreNotes did }
    ensures proc { (node : NodeState) (did : List Act) (now : NodeState) → node_make node ≡ Ok (did, now) → (Keeps node now × Ages node now) × AreNotes did }
{}

/// So it is that a process registers a name of its node, or takes one away.
pub fn names_that_change()
    ensures registered { (node : NodeState) (by : ℕ) (name : List ℕ) (room : Room) (did : List Act) (now : NodeState) → node_command node by (Register name) room ≡ Ok (did, now) → (Keeps node now × Ages node now) × AreNotes did }
    ensures taken { (node : NodeState) (by : ℕ) (name : List ℕ) (room : Room) (did : List Act) (now : NodeState) → node_command node by (Unregister name) room ≡ Ok (did, now) → (Keeps node now × Ages node now) × AreNotes did }
{}

/// A process of a node is over: at the receiving node that is an event as `stood_by_an_event` asks for; at the sending node, of
/// a process that was made, it is over then and its pairs have no connection, and else all is as before. So it is with all
/// that its watchers are told.
pub fn over_at_a_node()
    ensures ages { (node : NodeState) (number : ℕ) (reason : Reason) (did : List Act) (now : NodeState) → over node number reason ≡ Ok (did, now) → Ages node now }
    ensures ends { (node : NodeState) (number : ℕ) (reason : Reason) (did : List Act) (now : NodeState) → over node number reason ≡ Ok (did, now) → is_some (life_of node.mail number) ≡ true → Ends node number now }
{}

/// A connection of a pair is closed on the link with the peer, in whatever state that is: its close is written or waits, and
/// what is seen then is the passage that has written it.
pub fn closed_on_the_link()
    ensures { (names : List Name) (scene : Scene) (p : Parting) → Parts scene p → IsParted names scene p }
{}

/// A process of the sending node that is over closes its connections: the host closes one after another, and what is seen
/// then is the passage after its pairs are finished, those with a connection in the order of the closes and the others after
/// them.
pub fn over_at_the_sender()
    ensures { (names : List Name) (scene : Scene) (number : ℕ) (now : NodeState) (ps : List Parting) (others : List ℕ) → EndsWith names scene number now ps others → IsOver names scene now ps others }
{}

/// An input that brings the sending node's link up on a socket, as its dial was accepted or it takes a request: the host tells
/// that the socket is up and writes what waited, in order; and what is seen then, where the socket has a number on the way
/// that is newer than the last one's, is the passage after the move.
pub fn risen_on_a_socket()
    ensures { (names : List Name) (scene : Scene) (input : LinkIn) (sock i : ℕ) → ComesUp scene.from input sock → scene.way.on < i → IsRisen names scene input sock i }
{}

/// The same at the receiving node's host: its table of connections stays, which is empty where a link isn't up, and what is
/// seen then, where no id is of a connection there yet, is the passage after the move.
pub fn come_on_a_socket()
    ensures { (names : List Name) (scene : Scene) (input : LinkIn) (sock i : ℕ) → ComesUp scene.to input sock → scene.way.at < i → IsCome names scene input sock i }
{}

/// A link that is up and fails, as its socket is lost, the peer closed its endpoint or didn't answer a probe, breaks: the host
/// ends its end, tells that the link broke, forgets what waited and all connections, and tells its node; the node breaks its
/// open pairs, and those with a name go on in their next epoch, whatever it tells its processes; and what is seen then is the
/// passage after the move.
pub fn broken_by_a_loss()
    ensures { (names : List Name) (scene : Scene) (input : LinkIn) (sock : ℕ) (probed : Bool) (why : Why) (pairs : List Pair) → Fails scene.from input sock probed why → LosesSocket names scene pairs → IsBroken names scene input sock why pairs }
{}

/// A message that is read first on the socket that the receiving node is up on, for a process or port whose process lives, or
/// for a name that a process has, is got: the host tells its node, the node puts it into the mailbox or port and tells that
/// it is got, and what is seen then is the passage after the move.
pub fn read_by_a_process()
    ensures { (names : List Name) (scene : Scene) (name : Name) (rest : List Item) (r : Reading) → ReadsFirst names scene name rest r → IsGot names scene rest r }
{}

/// A message that is read first there for a name that nobody has is got by nobody, which the node tells; and what is seen
/// then is the passage after the move.
pub fn read_by_nobody()
    ensures { (names : List Name) (scene : Scene) (rest : List Item) (by : ℕ) (name : List ℕ) (from : ProcessId) (said : Message) (r : Arriving) → ArrivesFirst scene rest r → ReadsForNobody names scene by name from said r → IsMissed names scene rest name from r }
{}

/// A message that is read first there on a connection that leads nowhere, or to a process or port that is over, is dropped:
/// the node says nothing, and what is seen then is the passage after the move.
pub fn dropped_on_arrival()
    ensures { (names : List Name) (scene : Scene) (rest : List Item) (r : Arriving) → ArrivesFirst scene rest r → LeadsNowhere scene.to.node r.arrived.bound → IsDropped names scene rest r }
{}

/// That a connection is created, when it is read there, gives it a number at the node, and nothing is told: what is seen is
/// as before, whatever the connection is for.
pub fn created_by_the_peer()
    ensures { (names : List Name) (scene : Scene) (what : Option Use) → CreatesNext scene → IsCreated names scene what }
{}

/// An opening message that is read first there, from a process of the peer to a process, port or name of this node, binds its
/// connection, or leaves it void where the target isn't there: the node learns what it is for, says nothing, and what is
/// seen then is the passage after the move.
pub fn opened_by_a_process()
    ensures { (names : List Name) (scene : Scene) (name : Name) (rest : List Item) (o : Opening) → OpensFirst names scene name rest o → IsOpened names scene rest o }
{}

/// A close that is read first there forgets its connection: the host tells its node, the node says nothing, and what is seen
/// then is the passage after the move.
pub fn closed_by_the_peer()
    ensures { (names : List Name) (scene : Scene) (rest : List Item) (k : Closing) → ClosesFirst scene rest k → IsDeparted names scene rest k }
{}

/// The receiving node's link that is up and fails falls: the host ends its end, tells that the link broke, forgets all
/// connections, and tells its node, which forgets what arrived. Where the node watches nothing at the peer, what is seen then,
/// where nothing comes from that socket any more, is the passage after the move; and whatever its processes are told, it is the
/// passage after that and after who stands for a target then.
pub fn fallen_by_a_loss()
    ensures { (names : List Name) (scene : Scene) (input : LinkIn) (sock : ℕ) (probed : Bool) (why : Why) (pairs : List Pair) → Fails scene.to input sock probed why → lost_pairs scene.to.peer scene.to.node.pairs ≡ Ok pairs → IsFallen names scene input sock why pairs }
{}

/// Whatever becomes of the processes, ports and names of the receiving node, where its connections lead where their pairs do,
/// and who was over there is over still: what is seen then is the passage after the move by which those stand for the
/// targets who do then.
pub fn stood_by_an_event()
    ensures { (names : List Name) (scene : Scene) (now : NodeState) → Faithful names scene → Ages scene.to.node now → IsStood names scene now }
{}

/// A node that is shut, and wasn't, tells it, and its host shuts the link with the peer. At the sending node what is seen then
/// is the passage after the move. At the receiving node it is the passage after nobody stands for a target any more and the
/// link fails; where it isn't up, and no id is of a connection there, it is so after the first of the two.
pub fn shut_at_a_node()
    ensures sender { (names : List Name) (scene : Scene) → scene.from.node.is_shut ≡ false → IsShut names scene }
    ensures receiver { (names : List Name) (scene : Scene) → scene.to.node.is_shut ≡ false → IsShutThere names scene }
    ensures off { (names : List Name) (scene : Scene) → scene.to.node.is_shut ≡ false → scene.created ≡ [] → IsShutOff names scene }
{}

/// A cell in which the sending node is, where no whole item is unread, makes of the command by which a process sends just that.
/// While the link isn't up, on an open connection or as the first of an epoch, it answers `ok`, the message is said, and the
/// host dials where nobody does; while the link is up the message's frame is written instead, and for the first of an epoch
/// that its connection is created and its opening before it. What is seen then, with the cell's host and node, is the passage
/// after the move.
pub fn sent_at_a_cell()
    ensures later { (names : List Name) → AreApart names → (scene : Scene) (c : ℕ) (name : Name) (conn id : ℕ) (said : Message) → SaysOnOpen names scene c name conn id said → (cell : Cell) → Sends scene name cell → IsSentAt names scene c name said cell }
    ensures first { (names : List Name) → AreApart names → (scene : Scene) (c : ℕ) (name : Name) (conn : ℕ) (said : Message) → SaysFirst names scene c name conn said → (cell : Cell) → SendsFirst scene name cell → IsSentFirstAt names scene c name conn said cell }
    ensures up { (names : List Name) → AreApart names → (scene : Scene) (c : ℕ) (name : Name) (conn id sock : ℕ) (probed : Bool) (said : Message) → SaysUp names scene c name conn id sock probed said → (cell : Cell) → Sends scene name cell → IsWrittenAt names scene c name id sock said cell }
    ensures first_up { (names : List Name) → AreApart names → (scene : Scene) (c : ℕ) (name : Name) (conn sock : ℕ) (probed : Bool) (said : Message) → SaysFirstUp names scene c name conn sock probed said → (cell : Cell) → SendsFirst scene name cell → IsWrittenFirstAt names scene c name conn sock said cell }
{}

/// A line by which a process sends to another node, on an open connection or as the first of an epoch, while the link isn't up
/// or while it is, in a world that has the scene of the two nodes: the line is answered `ok`, the world after it has the scene
/// after it, with the way between as the same sockets' bytes, and where the link is up with the frames' bytes behind what is
/// unread, and for the first of an epoch with one id more on the leg; and what is seen then is the passage after the move.
pub fn sent_by_a_line()
    ensures later { (names : List Name) → AreApart names → (world : World) (from to : ℕ) (legs : ℕ → Option Leg) (scene : Scene) (c : ℕ) (name : Name) (conn id : ℕ) (said : Message) (by : ProcName) (target : TargetName)
        → (s : IsSceneOf world from to legs scene) → NamesAreNew world → IsLineOf world from scene.from name by target → SaysOnOpen names scene c name conn id said → Sends scene name s.sender.cell → IsSentIn names world from to legs scene c name said by target }
    ensures first { (names : List Name) → AreApart names → (world : World) (from to : ℕ) (legs : ℕ → Option Leg) (scene : Scene) (c : ℕ) (name : Name) (conn : ℕ) (said : Message) (by : ProcName) (target : TargetName)
        → (s : IsSceneOf world from to legs scene) → NamesAreNew world → IsLineOf world from scene.from name by target → SaysFirst names scene c name conn said → SendsFirst scene name s.sender.cell → IsSentFirstIn names world from to legs scene c name conn said by target }
    ensures up { (names : List Name) → AreApart names → (world : World) (from to : ℕ) (legs : ℕ → Option Leg) (scene : Scene) (c : ℕ) (name : Name) (conn id sock : ℕ) (probed : Bool) (said : Message) (by : ProcName) (target : TargetName)
        → (s : IsSceneOf world from to legs scene) → AreSocketsApart legs → IsLineOf world from scene.from name by target → SaysUp names scene c name conn id sock probed said → Sends scene name s.sender.cell → IsWrittenIn names world from to legs scene c name id sock said by target }
    ensures first_up { (names : List Name) → AreApart names → (world : World) (from to : ℕ) (legs : ℕ → Option Leg) (scene : Scene) (c : ℕ) (name : Name) (conn sock : ℕ) (probed : Bool) (said : Message) (by : ProcName) (target : TargetName)
        → (s : IsSceneOf world from to legs scene) → AreSocketsApart legs → IsLineOf world from scene.from name by target → SaysFirstUp names scene c name conn sock probed said → SendsFirst scene name s.sender.cell → IsWrittenFirstIn names world from to legs scene c name conn sock said by target }
{}

/// A line by which a process that acts reconnects to a target at another node, where the pair has an open connection, in a world
/// that has the scene of the two nodes: the line is answered `ok`, the world after it has the scene after it, with the same
/// legs, where the connection's close waits, or while the link is up comes behind what is unread; and what is seen then is the
/// passage after the move.
pub fn reconnected_by_a_line()
    ensures down { (names : List Name) → AreApart names → (world : World) (from to : ℕ) (legs : ℕ → Option Leg) (scene : Scene) (c : ℕ) (name : Name) (conn id : ℕ) (table : List Connection) (by : ProcName) (target : TargetName)
        → IsSceneOf world from to legs scene → IsLineOf world from scene.from name by target → acting scene.from.node name.by ≡ Ok tt → ReconnectsOpen names scene c name conn id table → IsReconnectedIn names world from to legs scene c name id table by target }
    ensures up { (names : List Name) → AreApart names → (world : World) (from to : ℕ) (legs : ℕ → Option Leg) (scene : Scene) (c : ℕ) (name : Name) (conn id sock : ℕ) (probed : Bool) (table : List Connection) (by : ProcName) (target : TargetName)
        → IsSceneOf world from to legs scene → AreSocketsApart legs → IsLineOf world from scene.from name by target → acting scene.from.node name.by ≡ Ok tt → ReconnectsUp names scene c name conn id sock probed table → IsClosedIn names world from to legs scene c name id sock table by target }
{}

/// A line by which a process of the sending node is over, in a world that has the scene of the two nodes, where the node tells
/// something and closes connections on the link with the peer, and asks nothing more of its host: it is answered `ok`, the
/// world after it has the scene after it, with the same legs, where each close waits, or while the link is up comes behind what
/// is unread; and what is seen then is the passage after the pairs of the process are finished.
pub fn over_by_a_line()
    ensures { (names : List Name) (world : World) (from to : ℕ) (legs : ℕ → Option Leg) (scene : Scene) (what : What) (event : LocalEvent) (did : List Act) (after : NodeState) (number : ℕ) (ps : List Parting) (others : List ℕ)
        → IsSceneOf world from to legs scene → AreSocketsApart legs → IsLeftBy world from scene.from what event did after ps → EndsWith names scene number after ps others → IsOverIn names world from to legs scene what did after ps others }
{}

/// A line that a node answers by telling something, and asks nothing of its host, as those of `own_mail`, in a world that has
/// the scene of two nodes: it is answered `ok`, and the world after it has the scene with the node after it. At the sending
/// node what is seen of that is what `unseen_at_the_sender`, `reconnected_without_a_connection` or `said_on_a_broken_pair`
/// says; at the receiving node it is the passage after the move.
pub fn told_by_a_line()
    ensures sender { (world : World) (from to : ℕ) (legs : ℕ → Option Leg) (scene : Scene) (what : What) (event : LocalEvent) (did : List Act) (after : NodeState)
        → IsSceneOf world from to legs scene → IsToldBy world from scene.from what event did after → IsToldIn world from to legs scene what did after }
    ensures receiver { (names : List Name) (world : World) (from to : ℕ) (legs : ℕ → Option Leg) (scene : Scene) (what : What) (event : LocalEvent) (did : List Act) (after : NodeState)
        → IsSceneOf world from to legs scene → IsToldBy world to scene.to what event did after → Faithful names scene → Ages scene.to.node after → IsStoodIn names world from to legs scene what did after }
{}

/// What the laws ask can be had: small scenes, in which a first message is said, and a second, and the pair reconnects, while
/// the link isn't up and while it is; the link comes up; the opening, the first message and the close are read; and the link
/// fails, at either node.
pub fn scenes()
    ensures apart { AreApart the_names }
    ensures first { SaysFirst the_names at_start 0 the_name 0 hello }
    ensures second { SaysOnOpen the_names (said_once (Dialing 0)) 0 the_name 0 1024 hello }
    ensures reconnect { ReconnectsOpen the_names (said_once (Dialing 0)) 0 the_name 0 1024 (closed 0 ∷ []) }
    ensures first_up { SaysFirstUp the_names up_at_start 0 the_name 0 0 false hello }
    ensures second_up { SaysUp the_names (said_once (Up 0 false)) 0 the_name 0 1024 0 false hello }
    ensures reconnect_up { ReconnectsUp the_names (said_once (Up 0 false)) 0 the_name 0 1024 0 false (closed 0 ∷ []) }
    ensures accepted { ComesUp (said_once (Dialing 0)).from (Answered Accepted) 0 }
    ensures asked { ComesUp at_start.to (Asked 1) 1 }
    ensures opening { OpensFirst the_names (up_with Unread (Created 0 0 ∷ message_item ∷ [])) the_name (message_item ∷ []) the_opening }
    ensures reading { ReadsFirst the_names (up_with bound_there (message_item ∷ [])) the_name [] the_reading }
    ensures closing { ClosesFirst (up_with bound_there (Closed 0 0 ∷ [])) [] the_closing }
    ensures fall { Fails (up_with bound_there (message_item ∷ [])).to Gone 1 false Disconnect }
    ensures shut { Fails (said_once (Up 0 false)).from EndClosed 0 false NodeDown }
    ensures loss { LosesSocket the_names (said_once (Up 0 false)) (record open_pair { mark = Broken } ∷ []) }
{}

/// The same of what is read: that a connection is created; an opening and a message for a port and for a name; a message for
/// a name that nobody has, and for a process that is over; and that the process is over there, to which a connection leads.
pub fn readings()
    ensures created { CreatesNext up_there }
    ensures opening_port { OpensFirst (pairs_to port_there) (up_to Unread (Created 0 0 ∷ [])) (pair_to port_there) [] (opening_to port_there) }
    ensures opening_name { OpensFirst (pairs_to name_there) (up_to Unread (Created 0 0 ∷ [])) (pair_to name_there) [] (opening_to name_there) }
    ensures reading_port { ReadsFirst (pairs_to port_there) (up_to (bound_as (only here) port_there) (message_item ∷ [])) (pair_to port_there) [] (reading_to port_there (record { life = Live; mailbox = []; ports = (hello ∷ []) ∷ [] } ∷ [])) }
    ensures reading_name { ReadsFirst (pairs_to name_there) (up_to (bound_as (only here) name_there) (message_item ∷ [])) (pair_to name_there) [] (reading_to name_there (record { life = Live; mailbox = hello ∷ []; ports = [] ∷ [] } ∷ [])) }
    ensures arriving { ArrivesFirst (up_with (ToNames (only here)) (message_item ∷ [])) [] (arriving_on (ToNames (only here)) name_there) }
    ensures nobody { ReadsForNobody (pairs_to name_there) (up_with (ToNames (only here)) (message_item ∷ [])) 0 title (only here) hello (arriving_on (ToNames (only here)) name_there) }
    ensures over { LeadsNowhere over_there bound_there }
    ensures leads { Faithful the_names (up_with bound_there []) }
    ensures ages { Ages (up_with bound_there []).to.node (record ((up_with bound_there []).to.node) { mail = over_there.mail }) }
{}

/// The same of a pair that is broken, which says a message and reconnects; of its connection, which is closed; and of its
/// process, which is over.
pub fn endings()
    ensures broken { SaysBroken the_names broken_once 0 the_name }
    ensures bare { ReconnectsBare the_names broken_once 0 the_name }
    ensures parting { Parts (said_once (Up 0 false)) the_parting }
    ensures ending { EndsWith the_names (said_once (Up 0 false)) 0 over_here (the_parting ∷ []) [] }
{}

/// The same of worlds: two nodes in cells of their own, where nothing was said yet, where one message waits, where both are
/// up after a message, and where both are up and nothing was said; a line sends in each, and a process is made.
pub fn sending_worlds()
    ensures new { NamesAreNew (world_with at_start []) }
    ensures scene { IsSceneOf (world_with at_start []) 0 1 no_legs at_start }
    ensures line { IsLineOf (world_with at_start []) 0 at_start.from the_name the_process the_target }
    ensures first { SendsFirst at_start the_name (cell_of_party at_start.from) }
    ensures later_scene { IsSceneOf (world_with (said_once (Dialing 0)) []) 0 1 no_legs (said_once (Dialing 0)) }
    ensures proc { IsToldBy (world_with at_start []) 0 at_start.from (Proc (97 ∷ [])) (Make 7) (acts_of_proc at_start.from.node) (after_proc at_start.from.node) }
    ensures up_scene { IsSceneOf (world_with both_up up_sockets) 0 1 up_legs both_up }
    ensures apart { AreSocketsApart up_legs }
    ensures up { Sends both_up the_name (cell_of_party both_up.from) }
    ensures up_says { SaysUp the_names both_up 0 the_name 0 1024 0 false hello }
    ensures up_line { IsLineOf (world_with both_up up_sockets) 0 both_up.from the_name the_process the_target }
    ensures later_line { IsLineOf (world_with (said_once (Dialing 0)) []) 0 (said_once (Dialing 0)).from the_name the_process the_target }
    ensures up_reconnects { ReconnectsUp the_names both_up 0 the_name 0 1024 0 false (closed 0 ∷ []) }
    ensures up_ends { IsLeftBy (world_with both_up up_sockets) 0 both_up.from (End the_process) (Command 7 0 commands.End) farewells_here over_here (the_parting ∷ []) }
    ensures up_ending { EndsWith the_names both_up 0 over_here (the_parting ∷ []) [] }
    ensures fresh_scene { IsSceneOf (world_with both_fresh up_sockets) 0 1 fresh_legs both_fresh }
    ensures fresh_apart { AreSocketsApart fresh_legs }
    ensures fresh { SendsFirst both_fresh the_name (cell_of_party both_fresh.from) }
    ensures fresh_says { SaysFirstUp the_names both_fresh 0 the_name 0 0 false hello }
    ensures fresh_line { IsLineOf (world_with both_fresh up_sockets) 0 both_fresh.from the_name the_process the_target }
    ensures later { Sends (said_once (Dialing 0)) the_name (cell_of_party (said_once (Dialing 0)).from) }
{}
