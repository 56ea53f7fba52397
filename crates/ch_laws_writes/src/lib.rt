//! The laws of what is written: on each socket a stream of whole items, a request or an answer first, then frames.
//!
//! No code: laws as clauses of empty functions, over the model below. How the ends of sockets stand, as a host's steps tell
//! it, stands beside.
#![tactic(auto)]

ghost use Rattle.std.specs.Prelude.{◌≡◌, ℕ, List, [], length, slice_get, Ok, Some, IsTrue};
ghost use Rattle.ch_base.specs.declared.address.Address.{Address};
ghost use Rattle.ch_reader.specs.Items.{Spells, MayStand};
ghost use Rattle.ch_reader.specs.Reading.{reading};
ghost use Rattle.ch_reader.specs.declared.item.Expected.TheVariants as expected;
ghost use Rattle.ch_reader.specs.declared.item.Front.TheVariants.{Whole};
ghost use Rattle.ch_reader.specs.declared.item.Item.{Item};
ghost use Rattle.ch_model.specs.declared.entry.Entry.{Entry};
ghost use Rattle.ch_model.specs.declared.entry.Verdict.{Verdict};
ghost use Rattle.ch_model.specs.declared.line.Line.{Line};
ghost use Rattle.ch_model.specs.declared.local.LocalEntry.{LocalEntry};
ghost use Rattle.ch_model.specs.declared.local.LocalEvent.{LocalEvent};
ghost use Rattle.ch_model.specs.declared.name.End.TheVariants.{O, T};
ghost use Rattle.ch_model.specs.declared.name.SockName.{SockName};
ghost use Rattle.ch_model.specs.declared.step.SocketEvent.{SocketEvent};
ghost use Rattle.ch_model.specs.declared.step.Step.{Step};
ghost use Rattle.ch_model.specs.declared.step.Weight.{Weight};
ghost use Rattle.ch_model.specs.AccountsBytes.{writes_an_item, writes_after_accepting};
ghost use Rattle.ch_model.specs.Cell.{cell_new, cell_step};
ghost use Rattle.ch_model.specs.Host.{host_on, host_next};
ghost use Rattle.ch_model.specs.HostCalls.{host_new, host_connect, host_send, host_close, host_close_endpoint};
ghost use Rattle.ch_model.specs.HostState.{HostState};
ghost use Rattle.ch_model.specs.HostSteps.{own_address};
ghost use Rattle.ch_model.specs.Logs.{each};
ghost use Rattle.ch_model.specs.Sockets.{writings};
ghost use Rattle.ch_model.specs.World.{names_of, world_new, log_from};
ghost use Rattle.ch_model.specs.WorldState.{Cell, World};
ghost use Rattle.ch_laws_log.specs.HostEnds.{steps_in};
ghost use Rattle.ch_laws_log.specs.Scenes.{sends_to_another};
ghost use Rattle.ch_laws_writes.specs.Dues.{Due, IsDue, due_at, due_heard, due_told};
ghost use Rattle.ch_laws_writes.specs.Orderly.{IsOrderly, WritesOn, AllWrite, ComesNew, ComesNewTo};
ghost use Rattle.ch_laws_writes.specs.Scenes.{meets_all};
ghost use Rattle.ch_laws_writes.specs.Writings.{EachWritesOne, EachAsksByName, reads_back, asks_readably, AllOwned, AreItems, AsksThenFrames, kind_of, MayAsk};

/// Whatever an orderly host is asked, or hears of its sockets and timers, it writes on each socket just what is due there,
/// one whole item at a time, and stays orderly. The opener's end writes its request when it is joined, from the address of
/// the endpoint that dialed to the peer that it dialed, and from then on frames. The target's end writes an answer
/// when the request was read; after the accepting one it writes frames, after any other nothing. An end that was left or
/// went down writes nothing more. Every frame may be read: its id has four bytes, and its payload isn't too long.
///
/// What is due after a call is what its steps lead to, but that a socket that came answers first. Such a socket has a number
/// that is new to the host. A host is orderly whose links and sockets fit each other; a new one is.
pub fn hosts_write_items()
    ensures fresh { (host : List ℕ) (port : ℕ) (circle : List (List ℕ)) → IsOrderly (own_address (host_new host port circle)) (host_new host port circle) }
    ensures on { (own : ℕ → Address) (host : HostState) (event : SocketEvent) → IsOrderly own host → ComesNew host event → AllWrite own (λ n. due_heard event n (due_at host n)) (host_on host event) }
    ensures next { (own : ℕ → Address) (host after : HostState) (told : List Step) → IsOrderly own host → host_next host ≡ Ok (Some told, after) → WritesOn own (due_at host) told after }
    ensures connect { (own : ℕ → Address) (host : HostState) (end : ℕ) (peer : Address) (conn : ℕ) → IsOrderly own host → AllWrite own (due_at host) (host_connect host end peer conn) }
    ensures send { (own : ℕ → Address) (host : HostState) (end conn : ℕ) (payload : List ℕ) (weight : Weight) → IsOrderly own host → AllWrite own (due_at host) (host_send host end conn payload weight) }
    ensures close { (own : ℕ → Address) (host : HostState) (end conn : ℕ) → IsOrderly own host → AllWrite own (due_at host) (host_close host end conn) }
    ensures close_endpoint { (own : ℕ → Address) (host : HostState) (end : ℕ) → IsOrderly own host → AllWrite own (due_at host) (host_close_endpoint host end) }
{}

/// So does a cell, a host with its nodes, whatever it hears: of all that followed, in the order in which it was told, each
/// step writes what is due then. The host of a new cell is orderly.
pub fn cells_write_items()
    ensures fresh { (host : List ℕ) (port : ℕ) (circle : List (List ℕ)) (nodes : List (ℕ × ℕ × List (List ℕ))) → IsOrderly (own_address (host_new host port circle)) (cell_new host port circle nodes).host }
    ensures step { (own : ℕ → Address) (cell after : Cell) (event : LocalEvent) (verdict : Verdict) (told : List LocalEntry) → IsOrderly own cell.host → ComesNewTo cell.host event → cell_step cell event ≡ Ok ((verdict, told), after)
        → WritesOn own (λ n. due_told event n (due_at cell.host n)) (steps_in told) after.host }
{}

/// The hosts of every world are orderly, after any lines of any journal, settling included. So what follows at each cell,
/// whatever it hears next, writes what is due.
pub fn worlds_write_items()
    ensures { (journal lines : List Line) (log : List Entry) (world : World) (place : ℕ) (cell : Cell × ℕ) → log_from (world_new journal) lines ≡ Ok (log, world) → slice_get world.cells place ≡ Some cell → IsOrderly (own_address cell.0.host) cell.0.host }
{}

/// What is due is read as one item, whole and of its bytes alone: a request, an answer or a frame. Of a request that is so
/// where the endpoint's own address may be read, and the number of the endpoint that it asks for has four bytes.
pub fn due_may_be_read()
    ensures { (own : ℕ → Address) (due : Due) (bytes : List ℕ) → MayAsk own due → IsDue own (Some due) bytes → (item : Item) × MayStand (kind_of due) item × Spells item bytes × (reading (kind_of due) bytes ≡ (Whole item, length bytes)) }
{}

/// So the log of any lines has it, settling included. Each entry that writes is one item of the kind that its end writes
/// next: an opener's end first a request, a target's first an answer, and both frames from then on. All but requests are read
/// back so. A target's end writes frames only after the accepting answer. All that a target's end wrote is a stream of
/// items that may follow each other, and so is all that an opener's wrote after its request. The request is from an address that
/// the opener's name stands for.
///
/// So the log is as its accounts ask, that each writing of a node's end is one item, and strangers' ends write none: where each
/// opener's end is of a host exactly if its socket's name is no stranger's, and requests are read back too. A journal of two nodes is such.
pub fn logs_write_items()
    ensures items { (journal lines : List Line) (log : List Entry) (world : World) → log_from (world_new journal) lines ≡ Ok (log, world) → EachWritesOne [] log }
    ensures by_name { (journal lines : List Line) (log : List Entry) (world : World) → log_from (world_new journal) lines ≡ Ok (log, world) → EachAsksByName (names_of journal) [] log }
    ensures read_back { (journal lines : List Line) (log : List Entry) (world : World) → log_from (world_new journal) lines ≡ Ok (log, world) → IsTrue (each reads_back log) }
    ensures as_accounted { (journal lines : List Line) (log : List Entry) (world : World) → log_from (world_new journal) lines ≡ Ok (log, world) → AllOwned journal world → IsTrue (each asks_readably log) → IsTrue (each (writes_an_item journal) log) }
    ensures such { IsTrue (meets_all sends_to_another) }
    ensures after_accepting { (journal lines : List Line) (log : List Entry) (world : World) → log_from (world_new journal) lines ≡ Ok (log, world) → IsTrue (each writes_after_accepting log) }
    ensures targets { (journal lines : List Line) (log : List Entry) (world : World) (s : SockName) → log_from (world_new journal) lines ≡ Ok (log, world) → AreItems expected.Answer (writings log s T) }
    ensures openers { (journal lines : List Line) (log : List Entry) (world : World) (s : SockName) → log_from (world_new journal) lines ≡ Ok (log, world) → AsksThenFrames (writings log s O) }
{}
