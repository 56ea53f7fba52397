//! The race for one socket in a whole world: what two of its nodes and their hosts do, as moves of ch_race's pair.
//!
//! No code: definitions of the view, and laws as clauses of empty functions. The whole model stands below, and the
//! machine with its laws. Each event of a host is shown to be moves that may happen, apart, and so are happenings of the world
//! after which no node is told anything and no whole item is left. The laws of whole journals stand above.
#![tactic(auto)]

ghost use Rattle.std.specs.Prelude.{◌≡◌, ℕ, slice_get, Bool, true, false, List, [], ◌∷◌, length, find, Some, None, Ok};
ghost use Rattle.ch_model.specs.declared.name.End.{End};
ghost use Rattle.ch_model.specs.HostState.{Link, Socket, HostState};
ghost use Rattle.ch_model.specs.declared.step.Weight.{Weight};
ghost use Rattle.ch_wire.specs.declared.frame.Frame.{Frame};
ghost use Rattle.ch_model.specs.WorldState.{Cell, WorldSocket};
ghost use Rattle.ch_race.specs.Pair.{Side, Lesser, Greater, other};
ghost use Rattle.ch_laws_race.specs.Scene.{Scene};
ghost use Rattle.ch_laws_race.specs.Reading.{IsSeen, read_at, reads_front};
ghost use Rattle.ch_laws_race.specs.Frames.{ReadsProbe, ReadsAck, ReadsClosed, ReadsPayload, ReadsClose, ReadsOpen};
ghost use Rattle.ch_light.specs.declared.Connection.{Connection};
ghost use Rattle.ch_laws_race.specs.Answers.{ReadsAnswer, ReadsAccepted, reads_and_says};
ghost use Rattle.ch_laws_race.specs.Requests.{ReadsWhileShut, ReadsWhileFree, ReadsWhileDialing, ReadsWhileLesserDials, ReadsWhileUp, ReadsWhileProbed, accepts_and_says};
ghost use Rattle.ch_laws_race.specs.Asks.{AsksUp, AsksWaiting, AsksIdle, asks_link};
ghost use Rattle.ch_laws_race.specs.Arrivals.{IsSeenFrom, Joins, joined_in, hears_joined, Comes, accepting, come_in, hears_come, Feeds, fed_in, hears_fed};
ghost use Rattle.ch_laws_race.specs.Ends.{InputEndsUp, InputEndsDialing, InputEndsUnnamed, end_at, input_ends};
ghost use Rattle.ch_laws_race.specs.Calls.{PutsWaiting, puts_frame, IsOfLink, Connects, Sends, Closes};
ghost use Rattle.ch_model.specs.HostCalls.{host_connect, host_send, host_close};
ghost use Rattle.ch_laws_race.specs.Chains.{Calls, IsOfCalls, moves_of};
ghost use Rattle.ch_laws_race.specs.Happenings.{IsAll, IsHappening, HandsSome, FeedsOne, AsksNothing};
ghost use Rattle.ch_laws_race.specs.Others.{DoneElsewhere, IsUnseen, IsOtherLink, ReadsElsewhere, HearsThird};
ghost use Rattle.ch_base.specs.declared.address.Address.{Address};
ghost use Rattle.ch_model.specs.declared.step.Step.{Step};
ghost use Rattle.ch_model.specs.HostSteps.{Stepped, link_with};
ghost use Rattle.ch_model.specs.HostCalls.{carries};
ghost use Rattle.ch_model.specs.Host.{front_of, handles};
ghost use Rattle.ch_model.specs.declared.local.LocalEvent.{LocalEvent};
ghost use Rattle.ch_model.specs.declared.local.LocalEvent.TheVariants as events;
ghost use Rattle.ch_model.specs.declared.step.SocketEvent.TheVariants as sockets;
ghost use Rattle.ch_model.specs.WorldHappenings.{cell_hears, joins, comes, feeds};
ghost use Rattle.ch_laws_race.specs.Scene.{hosts_of, host_of, link_of};
ghost use Rattle.ch_race.specs.Moves.{Move, End_o, Read_o, Read_t, Say, Want, Join, Come};
ghost use Rattle.ch_wire.specs.declared.answer.Answer.TheVariants as answers;
ghost use Rattle.ch_wire.specs.declared.answer.Answer.TheVariants.{Crossed, Invalid};
ghost use Rattle.ch_wire.specs.declared.frame.Frame.TheVariants as frames;
ghost use Rattle.ch_wire.specs.Spelling.{request_spelling, answer_spelling, frame_spelling};
ghost use Rattle.ch_reader.specs.declared.item.Expected.TheVariants as expected;
ghost use Rattle.ch_light.specs.Ids.{opened, closed};
ghost use Rattle.ch_link.specs.declared.LinkState.TheVariants.{Idle, Dialing, Up};
ghost use Rattle.ch_model.specs.declared.name.End.TheVariants.{O, T};
ghost use Rattle.ch_model.specs.declared.step.Weight.TheVariants.{Free};
ghost use Rattle.ch_model.specs.Stages.{Pending, Open, Ended};
ghost use Rattle.ch_laws_race.specs.Rows.{up_with, dials_with, lesser_asked, greater_asked, left_with, stale, at_first, just_dialed, half_probe, half_fed, near_with, dial_near, known_near, request_of, known_as, dialed_by, dialing_by, cell_of, third, link_to_third, known_third, three_with, third_cell, three_hosts};

/// A probe that is read on the socket that the link is up on is acknowledged there, at either end.
pub fn probe_is_read()
    ensures { (scene : Scene) (x : Side) (cell : Cell × ℕ) (e : End) (i : ℕ) (socket : WorldSocket) (known : Socket) (probed : Bool) → ReadsProbe scene x cell e i socket known probed
        → IsSeen scene x cell (reads_front scene x known) (read_at e i ∷ []) }
{}

/// An acknowledgement that is read there ends that the link is probed.
pub fn acknowledgement_is_read()
    ensures { (scene : Scene) (x : Side) (cell : Cell × ℕ) (e : End) (i : ℕ) (socket : WorldSocket) (known : Socket) (probed : Bool) → ReadsAck scene x cell e i socket known probed
        → IsSeen scene x cell (reads_front scene x known) (read_at e i ∷ []) }
{}

/// That the other's endpoint closed, read on the socket that the link is up on, ends this end, and the link fails.
pub fn closing_is_read()
    ensures { (scene : Scene) (x : Side) (cell : Cell × ℕ) (e : End) (i : ℕ) (socket : WorldSocket) (known : Socket) (probed : Bool) → ReadsClosed scene x cell e i socket known probed
        → IsSeen scene x cell (reads_front scene x known) (read_at e i ∷ []) }
{}

/// An acceptance that is read on the socket that the link dials brings the link up, and what waits is said there.
pub fn acceptance_is_read()
    ensures { (scene : Scene) (x : Side) (cell : Cell × ℕ) (i : ℕ) (socket : WorldSocket) (known : Socket) → ReadsAccepted scene x cell i socket known
        → IsSeen scene x cell (reads_front scene x known) (reads_and_says x i (link_of scene x).waits) }
{}

/// "Crossed" that is read there ends this end, and the link awaits the other's request.
pub fn crossing_is_read()
    ensures { (scene : Scene) (x : Side) (cell : Cell × ℕ) (i : ℕ) (socket : WorldSocket) (known : Socket) → ReadsAnswer scene x cell i socket known Crossed
        → IsSeen scene x cell (reads_front scene x known) (Read_o i ∷ []) }
{}

/// "Invalid" that is read there ends this end, and the link fails.
pub fn refusal_is_read()
    ensures { (scene : Scene) (x : Side) (cell : Cell × ℕ) (i : ℕ) (socket : WorldSocket) (known : Socket) → ReadsAnswer scene x cell i socket known Invalid
        → IsSeen scene x cell (reads_front scene x known) (Read_o i ∷ []) }
{}

/// A request that a node reads which is shut is answered "invalid", and its socket's end is ended; the link stays.
pub fn request_while_shut()
    ensures { (scene : Scene) (x : Side) (cell : Cell × ℕ) (i : ℕ) (socket : WorldSocket) (known : Socket) → ReadsWhileShut scene x cell i socket known
        → IsSeen scene x cell (reads_front scene x known) (Read_t i ∷ []) }
{}

/// A request that a node reads which dials nothing and isn't up is accepted: the link is up there, and what waits is said.
pub fn request_while_free()
    ensures { (scene : Scene) (x : Side) (cell : Cell × ℕ) (i : ℕ) (socket : WorldSocket) (known : Socket) → ReadsWhileFree scene x cell i socket known
        → IsSeen scene x cell (reads_front scene x known) (accepts_and_says scene x i) }
{}

/// A request that the node of the greater address reads while it dials is crossed, and it goes on dialing.
pub fn request_while_greater_dials()
    ensures { (scene : Scene) (cell : Cell × ℕ) (i : ℕ) (socket : WorldSocket) (known : Socket) (own : ℕ) → ReadsWhileDialing scene cell i socket known own
        → IsSeen scene Greater cell (reads_front scene Greater known) (Read_t i ∷ []) }
{}

/// A request that a node reads while it is up and probed is crossed, and nothing more.
pub fn request_while_probed()
    ensures { (scene : Scene) (x : Side) (cell : Cell × ℕ) (i : ℕ) (socket : WorldSocket) (known : Socket) (up : ℕ) → ReadsWhileProbed scene x cell i socket known up
        → IsSeen scene x cell (reads_front scene x known) (Read_t i ∷ []) }
{}

/// A request that the node of the lesser address reads while it dials is accepted, and it leaves its own dial.
pub fn request_while_lesser_dials()
    ensures { (scene : Scene) (cell : Cell × ℕ) (i : ℕ) (socket : WorldSocket) (known : Socket) (j : ℕ) (dialed : WorldSocket) (own : Socket) → ReadsWhileLesserDials scene cell i socket known j dialed own
        → IsSeen scene Lesser cell (reads_front scene Lesser known) (accepts_and_says scene Lesser i) }
{}

/// A request that a node reads while it is up on another socket, and isn't probed, is crossed; it writes a probe there.
pub fn request_while_up()
    ensures { (scene : Scene) (x : Side) (cell : Cell × ℕ) (i : ℕ) (socket : WorldSocket) (known : Socket) (e : End) (j : ℕ) (standing : WorldSocket) (up : Socket) → ReadsWhileUp scene x cell i socket known e j standing up
        → IsSeen scene x cell (reads_front scene x known) (Read_t i ∷ []) }
{}

/// A payload that is read on an open connection is told to the node, and nothing else changes at the sockets.
pub fn payload_is_read()
    ensures { (scene : Scene) (x : Side) (cell : Cell × ℕ) (e : End) (i : ℕ) (socket : WorldSocket) (known : Socket) (id : ℕ) (payload : List ℕ) (conn : ℕ) → ReadsPayload scene x cell e i socket known id payload conn
        → IsSeen scene x cell (reads_front scene x known) (read_at e i ∷ []) }
{}

/// That a connection is closed, which was open, likewise.
pub fn close_is_read()
    ensures { (scene : Scene) (x : Side) (cell : Cell × ℕ) (e : End) (i : ℕ) (socket : WorldSocket) (known : Socket) (id : ℕ) (left : ℕ × List Connection) → ReadsClose scene x cell e i socket known id left
        → IsSeen scene x cell (reads_front scene x known) (read_at e i ∷ []) }
{}

/// That a connection is opened under the next id likewise.
pub fn opening_is_read()
    ensures { (scene : Scene) (x : Side) (cell : Cell × ℕ) (e : End) (i : ℕ) (socket : WorldSocket) (known : Socket) (id : ℕ) (created : List Connection) → ReadsOpen scene x cell e i socket known id created
        → IsSeen scene x cell (reads_front scene x known) (read_at e i ∷ []) }
{}

/// The end of input on the socket that the link is up on ends this end, and the link fails.
pub fn input_ends_while_up()
    ensures { (scene : Scene) (x : Side) (cell : Cell × ℕ) (e : End) (i : ℕ) (socket : WorldSocket) (known : Socket) (probed : Bool) → InputEndsUp scene x cell e i socket known probed
        → IsSeen scene x cell (input_ends scene x known) (end_at e i ∷ []) }
{}

/// The same on the socket that the link dials.
pub fn input_ends_while_dialing()
    ensures { (scene : Scene) (x : Side) (cell : Cell × ℕ) (e : End) (i : ℕ) (socket : WorldSocket) (known : Socket) → InputEndsDialing scene x cell e i socket known
        → IsSeen scene x cell (input_ends scene x known) (end_at e i ∷ []) }
{}

/// The end of input on a socket that the link doesn't name ends this end, and nothing else.
pub fn input_ends_elsewhere()
    ensures { (scene : Scene) (x : Side) (cell : Cell × ℕ) (e : End) (i : ℕ) (socket : WorldSocket) (known : Socket) → InputEndsUnnamed scene x cell e i socket known
        → IsSeen scene x cell (input_ends scene x known) (end_at e i ∷ []) }
{}

/// What an endpoint calls for a connection to the other node is that a frame is put on its link: an opening or a payload, and
/// the link wants a socket; or a close.
pub fn calls_are_of_the_link()
    ensures connect { (scene : Scene) (x : Side) (conn : ℕ) (given : ℕ × List Connection) → Connects scene x conn given
        → IsOfLink scene x (host_connect (host_of scene x) (scene.party x).address.id (scene.party (other x)).address conn) (asks_link scene x (frames.Created given.0, Free) (record (link_of scene x) { given = given.1 })) (record (link_of scene x) { given = given.1 }) }
    ensures send { (scene : Scene) (x : Side) (conn : ℕ) (payload : List ℕ) (weight : Weight) (id : ℕ) → Sends scene x conn payload weight id
        → IsOfLink scene x (host_send (host_of scene x) (scene.party x).address.id conn payload weight) (asks_link scene x (frames.Data id payload, weight) (link_of scene x)) (link_of scene x) }
    ensures close { (scene : Scene) (x : Side) (conn : ℕ) (closed : ℕ × List Connection) → Closes scene x conn closed
        → IsOfLink scene x (host_close (host_of scene x) (scene.party x).address.id conn) (puts_frame scene x (frames.Closed closed.0, Free) (record (link_of scene x) { given = closed.1 })) (record (link_of scene x) { given = closed.1 }) }
{}

/// A frame of a connection that is put while the link is up is written at once: the node says a payload.
pub fn frame_is_said()
    ensures asked { (scene : Scene) (x : Side) (cell : Cell × ℕ) (e : End) (i : ℕ) (socket : WorldSocket) (known : Socket) (item : Frame × Weight) (link : Link) (probed : Bool) → AsksUp scene x cell e i socket known item link probed
        → IsSeen scene x cell (asks_link scene x item link) (Say x ∷ []) }
    ensures alone { (scene : Scene) (x : Side) (cell : Cell × ℕ) (e : End) (i : ℕ) (socket : WorldSocket) (known : Socket) (item : Frame × Weight) (link : Link) (probed : Bool) → AsksUp scene x cell e i socket known item link probed
        → IsSeen scene x cell (puts_frame scene x item link) (Say x ∷ []) }
{}

/// A frame that is put while the link dials or awaits the other waits, and nothing is seen; where no socket is wanted, also
/// while it is idle.
pub fn frame_waits()
    ensures asked { (scene : Scene) (x : Side) (cell : Cell × ℕ) (item : Frame × Weight) (link : Link) → AsksWaiting scene x cell link → IsSeen scene x cell (asks_link scene x item link) [] }
    ensures alone { (scene : Scene) (x : Side) (cell : Cell × ℕ) (item : Frame × Weight) (link : Link) → PutsWaiting scene x cell link → IsSeen scene x cell (puts_frame scene x item link) [] }
{}

/// A frame that is put while the link is idle waits, and the node dials the world's next socket.
pub fn link_dials()
    ensures { (scene : Scene) (x : Side) (cell : Cell × ℕ) (item : Frame × Weight) (link : Link) → AsksIdle scene x cell link
        → IsSeen scene x cell (asks_link scene x item link) (Want x (length scene.world.sockets) ∷ []) }
{}

/// A socket that its opener has joined is open at that end, and the request is written.
pub fn socket_joins()
    ensures { (scene : Scene) (x : Side) (cell : Cell × ℕ) (i : ℕ) (socket : WorldSocket) (known : Socket) → Joins scene x cell i socket known
        → IsSeenFrom scene x cell (joined_in scene socket) (hears_joined scene x known) (Join i ∷ []) }
{}

/// A socket that its target's host has taken is open at that end.
pub fn socket_comes()
    ensures { (scene : Scene) (x : Side) (cell : Cell × ℕ) (i : ℕ) (socket : WorldSocket) → Comes scene x cell i socket
        → IsSeenFrom scene x (accepting cell) (come_in scene x cell socket) (hears_come scene x cell socket) (Come i ∷ []) }
{}

/// Bytes that are fed, however many, are seen as nothing: an item is what it was until it is read.
pub fn bytes_are_fed()
    ensures { (scene : Scene) (x : Side) (cell : Cell × ℕ) (e : End) (i count : ℕ) (socket : WorldSocket) (known : Socket) → Feeds scene x cell e i socket known
        → IsSeenFrom scene x cell (fed_in scene e count socket) (hears_fed scene x e count socket known) [] }
{}

/// A happening of the world at a socket, as a line or a settle does it, where nodes are told nothing and no whole item is left to
/// read: a socket joins, or comes, or bytes are fed that make no item whole, or one. What is seen of the world then is the pair
/// after the moves: none where no item was whole, and else those that its reading is.
pub fn happenings()
    ensures join { (scene : Scene) (x : Side) (cell : Cell × ℕ) (i : ℕ) (socket : WorldSocket) (known : Socket) → Joins scene x cell i socket known → IsAll (hears_joined scene x known)
        → IsHappening scene (joins socket scene.world) (Join i ∷ []) }
    ensures come { (scene : Scene) (x : Side) (cell : Cell × ℕ) (i : ℕ) (socket : WorldSocket) → Comes scene x cell i socket → IsAll (hears_come scene x cell socket)
        → IsHappening scene (comes socket scene.world) (Come i ∷ []) }
    ensures feed { (scene : Scene) (x : Side) (cell : Cell × ℕ) (e : End) (i count : ℕ) (socket : WorldSocket) (known : Socket) → Feeds scene x cell e i socket known → HandsSome e count socket → IsAll (hears_fed scene x e count socket known)
        → IsHappening scene (feeds e count socket scene.world) [] }
    ensures item { (scene : Scene) (x : Side) (cell : Cell × ℕ) (e : End) (i count : ℕ) (socket : WorldSocket) (known : Socket) (moves : List Move) → FeedsOne scene x cell e i count socket known moves
        → IsHappening scene (feeds e count socket scene.world) moves }
{}

/// An event of a cell, of these two nodes or of others, that asks nothing of its host is seen as nothing: a process that is made or
/// that takes what it has got, or one that says something to its own node.
pub fn node_alone()
    ensures { (scene : Scene) (place : ℕ) (cell : Cell × ℕ) (event : LocalEvent) → slice_get scene.world.cells place ≡ Some cell → AsksNothing cell.0 event
        → IsHappening scene (cell_hears place event scene.world) [] }
{}

/// What a host does at sockets of others, of one of the two nodes or of none, shows nothing of them, where it keeps their links, their
/// endpoints and its records of what is between them. At a host of one of them that is no move.
pub fn others_are_unseen()
    ensures anywhere { (scene : Scene) (place : ℕ) (cell : Cell × ℕ) (done : Stepped) → DoneElsewhere scene place cell done → IsUnseen scene place cell done }
    ensures here { (scene : Scene) (x : Side) (cell : Cell × ℕ) (done : Stepped) → IsUnseen scene (scene.party x).place cell done → IsSeen scene x cell done [] }
{}

/// What an endpoint calls for another link than that of the two nodes shows nothing of them, whatever it does: a connection is
/// opened, a payload sent, a connection closed, by another endpoint or for another peer, at a host of the two or at another.
pub fn calls_of_others()
    ensures connect { (scene : Scene) (place : ℕ) (cell : Cell × ℕ) (end : ℕ) (peer : Address) (conn : ℕ) (done : List Step × HostState) → IsOtherLink scene place cell (link_with (hosts_of scene.world place) end peer)
        → host_connect (hosts_of scene.world place) end peer conn ≡ Ok done → IsUnseen scene place cell (Ok done) }
    ensures send { (scene : Scene) (place : ℕ) (cell : Cell × ℕ) (end conn : ℕ) (payload : List ℕ) (weight : Weight) (link : Link) (done : List Step × HostState) → find (carries end conn) (hosts_of scene.world place).links ≡ Some link → IsOtherLink scene place cell link
        → host_send (hosts_of scene.world place) end conn payload weight ≡ Ok done → IsUnseen scene place cell (Ok done) }
    ensures close { (scene : Scene) (place : ℕ) (cell : Cell × ℕ) (end conn : ℕ) (link : Link) (done : List Step × HostState) → find (carries end conn) (hosts_of scene.world place).links ≡ Some link → IsOtherLink scene place cell link
        → host_close (hosts_of scene.world place) end conn ≡ Ok done → IsUnseen scene place cell (Ok done) }
{}

/// An item, or a refusal, that is read on a socket that isn't between the two nodes shows nothing of them, whatever it is: at a
/// host of the two or at another.
pub fn item_of_others()
    ensures { (scene : Scene) (place : ℕ) (cell : Cell × ℕ) (socket : Socket) (done : List Step × HostState) → ReadsElsewhere scene place cell socket
        → handles socket (front_of socket) (hosts_of scene.world place) ≡ Ok done → IsUnseen scene place cell (Ok done) }
{}

/// Whatever a cell hears of which the host is a third one, neither of the two being there, and what follows, is seen as nothing.
pub fn third_host()
    ensures { (scene : Scene) (place : ℕ) (cell : Cell × ℕ) (event : LocalEvent) → HearsThird scene place cell event
        → IsHappening scene (cell_hears place event scene.world) [] }
{}

/// An event of a cell in which its host is called again and again, with what nodes make of what they are told between, is seen as
/// the moves of all calls: where each call, in the scene that those before it leave, is seen as its moves.
pub fn calls_in_turn()
    ensures { (scene : Scene) (x : Side) (cell : Cell × ℕ) (event : LocalEvent) (calls : Calls) → IsOfCalls scene x cell event calls
        → IsHappening scene (cell_hears (scene.party x).place event scene.world) (moves_of calls) }
{}

/// What the laws ask can be had: small scenes of two nodes on two hosts, one for each law, and one where both are on one host.
pub fn scenes()
    ensures probe { ReadsProbe (up_with false (frame_spelling frames.Probe)) Lesser (cell_of Lesser (up_with false (frame_spelling frames.Probe))) O 0 (dialed_by Lesser Open Open) (known_as Lesser 0 Open (Some expected.Frame) (frame_spelling frames.Probe)) false }
    ensures probe_on_one_host { ReadsProbe (near_with (frame_spelling frames.Probe)) Lesser (cell_of Lesser (near_with (frame_spelling frames.Probe))) O 0 dial_near (known_near Lesser 0 (frame_spelling frames.Probe)) false }
    ensures acknowledgement { ReadsAck (up_with true (frame_spelling frames.ProbeAck)) Lesser (cell_of Lesser (up_with true (frame_spelling frames.ProbeAck))) O 0 (dialed_by Lesser Open Open) (known_as Lesser 0 Open (Some expected.Frame) (frame_spelling frames.ProbeAck)) true }
    ensures closing { ReadsClosed (up_with false (frame_spelling frames.EndClosed)) Lesser (cell_of Lesser (up_with false (frame_spelling frames.EndClosed))) O 0 (dialed_by Lesser Open Open) (known_as Lesser 0 Open (Some expected.Frame) (frame_spelling frames.EndClosed)) false }
    ensures payload { ReadsPayload (up_with false (frame_spelling (frames.Data 1024 []))) Lesser (cell_of Lesser (up_with false (frame_spelling (frames.Data 1024 [])))) O 0 (dialed_by Lesser Open Open) (known_as Lesser 0 Open (Some expected.Frame) (frame_spelling (frames.Data 1024 []))) 1024 [] 1 }
    ensures close { ReadsClose (up_with false (frame_spelling (frames.Closed 1024))) Lesser (cell_of Lesser (up_with false (frame_spelling (frames.Closed 1024)))) O 0 (dialed_by Lesser Open Open) (known_as Lesser 0 Open (Some expected.Frame) (frame_spelling (frames.Closed 1024))) 1024 (1, closed 1 ∷ []) }
    ensures opening { ReadsOpen (up_with false (frame_spelling (frames.Created 1025))) Lesser (cell_of Lesser (up_with false (frame_spelling (frames.Created 1025)))) O 0 (dialed_by Lesser Open Open) (known_as Lesser 0 Open (Some expected.Frame) (frame_spelling (frames.Created 1025))) 1025 (opened 1 ∷ opened 3 ∷ []) }
    ensures acceptance { ReadsAccepted (dials_with (answer_spelling answers.Accepted)) Lesser (cell_of Lesser (dials_with (answer_spelling answers.Accepted))) 0 (dialed_by Lesser Open Open) (known_as Lesser 0 Open (Some expected.Answer) (answer_spelling answers.Accepted)) }
    ensures crossing { ReadsAnswer (dials_with (answer_spelling answers.Crossed)) Lesser (cell_of Lesser (dials_with (answer_spelling answers.Crossed))) 0 (dialed_by Lesser Open Open) (known_as Lesser 0 Open (Some expected.Answer) (answer_spelling answers.Crossed)) answers.Crossed }
    ensures refusal { ReadsAnswer (dials_with (answer_spelling answers.Invalid)) Lesser (cell_of Lesser (dials_with (answer_spelling answers.Invalid))) 0 (dialed_by Lesser Open Open) (known_as Lesser 0 Open (Some expected.Answer) (answer_spelling answers.Invalid)) answers.Invalid }
    ensures while_shut { ReadsWhileShut (lesser_asked false expected.Answer Idle) Lesser (cell_of Lesser (lesser_asked false expected.Answer Idle)) 1 (dialed_by Greater Open Open) (known_as Lesser 1 Open None (request_spelling (request_of Greater))) }
    ensures while_free { ReadsWhileFree (lesser_asked true expected.Answer Idle) Lesser (cell_of Lesser (lesser_asked true expected.Answer Idle)) 1 (dialed_by Greater Open Open) (known_as Lesser 1 Open None (request_spelling (request_of Greater))) }
    ensures while_greater_dials { ReadsWhileDialing greater_asked (cell_of Greater greater_asked) 0 (dialed_by Lesser Open Open) (known_as Greater 1 Open None (request_spelling (request_of Lesser))) 0 }
    ensures while_lesser_dials { ReadsWhileLesserDials (lesser_asked true expected.Answer (Dialing 0)) (cell_of Lesser (lesser_asked true expected.Answer (Dialing 0))) 1 (dialed_by Greater Open Open) (known_as Lesser 1 Open None (request_spelling (request_of Greater))) 0 (dialed_by Lesser Open Open) (known_as Lesser 0 Open (Some expected.Answer) []) }
    ensures while_up { ReadsWhileUp (lesser_asked true expected.Frame (Up 0 false)) Lesser (cell_of Lesser (lesser_asked true expected.Frame (Up 0 false))) 1 (dialed_by Greater Open Open) (known_as Lesser 1 Open None (request_spelling (request_of Greater))) O 0 (dialed_by Lesser Open Open) (known_as Lesser 0 Open (Some expected.Frame) []) }
    ensures while_probed { ReadsWhileProbed (lesser_asked true expected.Frame (Up 0 true)) Lesser (cell_of Lesser (lesser_asked true expected.Frame (Up 0 true))) 1 (dialed_by Greater Open Open) (known_as Lesser 1 Open None (request_spelling (request_of Greater))) 0 }
    ensures end_while_up { InputEndsUp (left_with (Up 0 false) expected.Frame) Lesser (cell_of Lesser (left_with (Up 0 false) expected.Frame)) O 0 (dialed_by Lesser Open Ended) (known_as Lesser 0 Open (Some expected.Frame) []) false }
    ensures end_while_dialing { InputEndsDialing (left_with (Dialing 0) expected.Answer) Lesser (cell_of Lesser (left_with (Dialing 0) expected.Answer)) O 0 (dialed_by Lesser Open Ended) (known_as Lesser 0 Open (Some expected.Answer) []) }
    ensures end_elsewhere { InputEndsUnnamed stale Lesser (cell_of Lesser stale) T 0 (dialed_by Greater Ended Open) (known_as Lesser 1 Open None []) }
    ensures said { AsksUp (up_with false []) Lesser (cell_of Lesser (up_with false [])) O 0 (dialed_by Lesser Open Open) (known_as Lesser 0 Open (Some expected.Frame) []) (frames.Created 1025, Free) (link_of (up_with false []) Lesser) false }
    ensures connect { Connects at_first Lesser 2 (1025, opened 0 ∷ opened 2 ∷ []) }
    ensures send { Sends (up_with false []) Lesser 0 [] Free 1024 }
    ensures shuts { Closes (up_with false []) Lesser 0 (1024, closed 0 ∷ []) }
    ensures puts { PutsWaiting at_first Lesser (cell_of Lesser at_first) (link_of at_first Lesser) }
    ensures waits { AsksWaiting just_dialed Lesser (cell_of Lesser just_dialed) (link_of just_dialed Lesser) }
    ensures dials { AsksIdle at_first Lesser (cell_of Lesser at_first) (link_of at_first Lesser) }
    ensures fed { Feeds (up_with false []) Lesser (cell_of Lesser (up_with false [])) O 0 (dialed_by Lesser Open Open) (known_as Lesser 0 Open (Some expected.Frame) []) }
    ensures joins { Joins just_dialed Lesser (cell_of Lesser just_dialed) 0 (dialing_by Lesser Pending) (known_as Lesser 0 Pending (Some expected.Answer) []) }
    ensures joins_all { IsAll (hears_joined just_dialed Lesser (known_as Lesser 0 Pending (Some expected.Answer) [])) }
    ensures comes_all { IsAll (hears_come just_dialed Greater (cell_of Greater just_dialed) (dialing_by Lesser Pending)) }
    ensures part { Feeds half_fed Lesser (cell_of Lesser half_fed) O 0 half_probe (known_as Lesser 0 Open (Some expected.Frame) []) }
    ensures some { HandsSome O 2 half_probe }
    ensures feeds_all { IsAll (hears_fed half_fed Lesser O 2 half_probe (known_as Lesser 0 Open (Some expected.Frame) [])) }
    ensures alone { AsksNothing (cell_of Lesser at_first).0 (events.Make 7) }
    ensures calls { IsOfCalls (left_with (Up 0 false) expected.Frame) Lesser (cell_of Lesser (left_with (Up 0 false) expected.Frame)) (events.Socket (sockets.Ended 0)) ((input_ends (left_with (Up 0 false) expected.Frame) Lesser (known_as Lesser 0 Open (Some expected.Frame) []), End_o 0 ∷ []) ∷ []) }
    ensures item { FeedsOne half_fed Lesser (cell_of Lesser half_fed) O 0 4 half_probe (known_as Lesser 0 Open (Some expected.Frame) []) (Read_o 0 ∷ []) }
    ensures other_up { IsOtherLink (three_with []) 0 (cell_of Lesser (three_with [])) (link_to_third (Up 2 false)) }
    ensures other_idle { IsOtherLink at_first 0 (cell_of Lesser at_first) (link_with (host_of at_first Lesser) 7 third) }
    ensures elsewhere { DoneElsewhere (three_with (frame_spelling frames.Probe)) 0 (cell_of Lesser (three_with (frame_spelling frames.Probe))) (reads_front (three_with (frame_spelling frames.Probe)) Lesser (known_third (frame_spelling frames.Probe))) }
    ensures item_elsewhere { ReadsElsewhere (three_with (frame_spelling frames.Probe)) 0 (cell_of Lesser (three_with (frame_spelling frames.Probe))) (known_third (frame_spelling frames.Probe)) }
    ensures third { HearsThird three_hosts 2 third_cell (events.Socket (sockets.Ended 1)) }
    ensures comes { Comes just_dialed Greater (cell_of Greater just_dialed) 0 (dialing_by Lesser Pending) }
{}
