//! The laws of bytes: what is unread at each end of each socket is whole items.
//!
//! No code: laws as clauses of empty functions, over the model below. That hosts and world agree on the ends, what hosts
//! read, and what they write, are laws of the crates below.
#![tactic(auto)]

ghost use Rattle.std.specs.Prelude.{◌≡◌, ℕ, List, [], ◌∷◌, ◌++◌, find, is_some, slice_get, false, true, Option, Some, Ok};
ghost use Rattle.ch_base.specs.declared.address.Address.{Address};
ghost use Rattle.ch_wire.specs.Spelling.{request_spelling};
ghost use Rattle.ch_reader.specs.Items.{item_spelling};
ghost use Rattle.ch_reader.specs.Reading.{reading};
ghost use Rattle.ch_reader.specs.declared.item.Expected.{Expected};
ghost use Rattle.ch_reader.specs.declared.item.Expected.TheVariants as expected;
ghost use Rattle.ch_reader.specs.declared.item.Item.{Item};
ghost use Rattle.ch_model.specs.declared.entry.Entry.{Entry};
ghost use Rattle.ch_model.specs.declared.line.Line.{Line};
ghost use Rattle.ch_model.specs.declared.name.End.{End};
ghost use Rattle.ch_model.specs.declared.name.End.TheVariants.{O, T};
ghost use Rattle.ch_model.specs.declared.name.SockName.{SockName};
ghost use Rattle.ch_model.specs.HostSteps.{own_address};
ghost use Rattle.ch_model.specs.Stages.{is_ended};
ghost use Rattle.ch_model.specs.World.{names_of, world_new, log_from};
ghost use Rattle.ch_model.specs.WorldSockets.{end_of, is_socket_named};
ghost use Rattle.ch_model.specs.WorldState.{Cell, Named, WorldSocket, World};
ghost use Rattle.ch_laws_reads.specs.Reads.{AreRead, AreReadOf};
ghost use Rattle.ch_laws_writes.specs.Dues.{Due, IsDue};
ghost use Rattle.ch_laws_bytes.specs.Scene.{address_a, scene, at_targets};
ghost use Rattle.ch_laws_bytes.specs.Streams.{Reader, Spelled, is_over, reader_of, due_of_end, AreItems, MayBeAsked, AreAddresses, MayAsk, is_refusal};

/// After any lines of any journal, settling included: at each end of a socket that is written by a host, the bytes that the
/// end's host has of it since its last item, and behind them those that are unread, are the spellings of items, of which
/// the first is of the kind that the host reads next; and what the other end writes next fits behind them. Of an end that is
/// over, which has ended or was cut, nothing is said.
///
/// A target asks for nothing; an opener asks once, and the request that it asked, or will ask, is that of an endpoint of its
/// host to a peer, which are called as the socket's name says. Where that may be read, its address being one and its number
/// in its range, the bytes towards the target are so.
pub fn bytes_are_items()
    ensures { (journal lines : List Line) (log : List Entry) (world : World) (s : SockName) (socket : WorldSocket) → log_from (world_new journal) lines ≡ Ok (log, world) → find (is_socket_named s) world.sockets ≡ Some socket → AreItems world socket }
{}

/// So an opener's end that isn't over has whole items before it; and a target's, where each request that may be asked under
/// the socket's name may be read. That is so between any names that the journal declares, where their addresses may be
/// spelled: such names aren't empty.
pub fn ends_have_items()
    ensures opener { (journal lines : List Line) (log : List Entry) (world : World) (s : SockName) (socket : WorldSocket) (reader : Reader) → log_from (world_new journal) lines ≡ Ok (log, world) → find (is_socket_named s) world.sockets ≡ Some socket
        → reader_of world socket O ≡ Some reader → is_over socket.o ≡ false → Spelled reader socket.o.unread (due_of_end world socket T) }
    ensures target { (journal lines : List Line) (log : List Entry) (world : World) (s : SockName) (socket : WorldSocket) (place : ℕ) (cell : Cell × ℕ) (reader : Reader) → log_from (world_new journal) lines ≡ Ok (log, world) → find (is_socket_named s) world.sockets ≡ Some socket
        → socket.o.cell ≡ Some place → slice_get world.cells place ≡ Some cell → MayBeAsked (own_address cell.0.host) world.names s
        → reader_of world socket T ≡ Some reader → is_over socket.t ≡ false → Spelled reader socket.t.unread (due_of_end world socket O) }
    ensures named { (journal lines : List Line) (log : List Entry) (world : World) (s : SockName) (socket : WorldSocket) (reader : Reader) → log_from (world_new journal) lines ≡ Ok (log, world) → find (is_socket_named s) world.sockets ≡ Some socket
        → AreAddresses (names_of journal) → (s.from ≡ [] → ⊥) → (s.to ≡ [] → ⊥) → is_some socket.o.cell ≡ true → reader_of world socket T ≡ Some reader → is_over socket.t ≡ false → Spelled reader socket.t.unread (due_of_end world socket O) }
{}

/// Each end of a host that hasn't ended is read by it.
pub fn ends_are_read()
    ensures { (journal lines : List Line) (log : List Entry) (world : World) (s : SockName) (socket : WorldSocket) (e : End) → log_from (world_new journal) lines ≡ Ok (log, world) → find (is_socket_named s) world.sockets ≡ Some socket
        → is_some (end_of e socket).cell ≡ true → is_ended (end_of e socket).stage ≡ false → is_some (reader_of world socket e) ≡ true }
{}

/// A request that is asked between declared names may be read, where their addresses may be spelled: the names are not
/// empty, as those of declarations are not.
pub fn named_ends_may_ask()
    ensures { (own : ℕ → Address) (known : List Named) (name : SockName) → AreAddresses known → (name.from ≡ [] → ⊥) → (name.to ≡ [] → ⊥) → MayBeAsked own known name }
{}

/// Where what is unread at an end is whole items, then of whatever bytes of these are fed to its host, the items that it
/// reads are the first of them, and nothing that stands at the front then is refused.
pub fn nothing_is_refused()
    ensures { (reader : Reader) (bytes left : List ℕ) (due : Option Due) (read : List Item) (next : Expected) (now : List ℕ) (s : Spelled reader (bytes ++ left) due) → AreRead reader.0 (reader.1 ++ bytes) read next now
        → AreReadOf s.items read next now left × (is_refusal (reading next now).0 ≡ false) }
{}

/// The items that bytes spell are determined by these. So the items between two ends stand in order: those that are read are
/// taken from their front, and what is written comes behind them.
pub fn items_stay_in_order()
    ensures one { (reader : Reader) (unread : List ℕ) (due next : Option Due) (s : Spelled reader unread due) (t : Spelled reader unread next) → t.items ≡ s.items }
    ensures read { (reader : Reader) (bytes left : List ℕ) (due after : Option Due) (read : List Item) (next : Expected) (now : List ℕ) (s : Spelled reader (bytes ++ left) due) (t : Spelled (next, now) left after) → AreRead reader.0 (reader.1 ++ bytes) read next now
        → s.items ≡ read ++ t.items }
    ensures written { (own : ℕ → Address) (reader : Reader) (unread bytes : List ℕ) (due after : Option Due) (s : Spelled reader unread due) (t : Spelled reader (unread ++ bytes) after) → IsDue own due bytes → MayAsk own due
        → (item : Item) × ((bytes ≡ item_spelling item) × (t.items ≡ s.items ++ item ∷ [])) }
{}

/// In a journal where a process sends to another node, and the opener's end is joined, the request is unread towards the
/// target, which hasn't come and is to read it.
pub fn a_request_is_unread()
    ensures { at_targets (log_from (world_new scene) scene) ≡ (Some (expected.Request, []), false, request_spelling (record { target = 0; from = address_a })) ∷ [] }
{}
