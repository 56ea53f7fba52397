//! The laws of what hosts read: of each socket the items at the front of its bytes, one after another, and nothing else.
//!
//! No code: laws as clauses of empty functions, over the model below. The laws of a whole world stand above.
#![tactic(auto)]

ghost use Rattle.std.specs.Prelude.{◌≡◌, ℕ, List, ◌++◌, Some, Ok};
ghost use Rattle.ch_base.specs.declared.address.Address.{Address};
ghost use Rattle.ch_reader.specs.Items.{spellings, MayFollow};
ghost use Rattle.ch_reader.specs.Reading.{reading};
ghost use Rattle.ch_reader.specs.declared.item.Expected.{Expected};
ghost use Rattle.ch_reader.specs.declared.item.Front.TheVariants.{Whole};
ghost use Rattle.ch_reader.specs.declared.item.Item.{Item};
ghost use Rattle.ch_model.specs.declared.entry.Verdict.{Verdict};
ghost use Rattle.ch_model.specs.declared.local.LocalEntry.{LocalEntry};
ghost use Rattle.ch_model.specs.declared.local.LocalEvent.{LocalEvent};
ghost use Rattle.ch_model.specs.declared.step.SocketEvent.{SocketEvent};
ghost use Rattle.ch_model.specs.declared.step.Step.{Step};
ghost use Rattle.ch_model.specs.declared.step.Weight.{Weight};
ghost use Rattle.ch_model.specs.Cell.{cell_step};
ghost use Rattle.ch_model.specs.Host.{host_on, host_next};
ghost use Rattle.ch_model.specs.HostCalls.{host_connect, host_send, host_close, host_close_endpoint};
ghost use Rattle.ch_model.specs.HostState.{HostState};
ghost use Rattle.ch_model.specs.WorldState.{Cell};
ghost use Rattle.ch_laws_log.specs.HostEnds.{IsSound, steps_in};
ghost use Rattle.ch_laws_reads.specs.Reads.{AreRead, AreReadOf, Reads, AllRead, handed_by, handed};

/// What a sound host does reads of each of its sockets as many items as the steps tell, from the front of its bytes, unless
/// the socket has ended; and a socket that is dialed has nothing to read. So it is of what happens to a socket or a timer,
/// from the host on with the bytes that are fed, or with the socket that has come; of each item that is handled; and of all
/// that an endpoint asks.
pub fn hosts_read_items()
    ensures on { (host : HostState) (event : SocketEvent) → AllRead (handed_by event host) (host_on host event) }
    ensures next { (host after : HostState) (told : List Step) → IsSound host → host_next host ≡ Ok (Some told, after) → Reads host told after }
    ensures connect { (host : HostState) (end : ℕ) (peer : Address) (conn : ℕ) → AllRead host (host_connect host end peer conn) }
    ensures send { (host : HostState) (end conn : ℕ) (payload : List ℕ) (weight : Weight) → AllRead host (host_send host end conn payload weight) }
    ensures close { (host : HostState) (end conn : ℕ) → AllRead host (host_close host end conn) }
    ensures close_endpoint { (host : HostState) (end : ℕ) → AllRead host (host_close_endpoint host end) }
{}

/// So it is of a cell, a host with its nodes, whatever it hears: of all that followed, the steps tell how many items were
/// read of each socket, from the host on with what the event hands to it.
pub fn cells_read_items()
    ensures { (cell after : Cell) (event : LocalEvent) (verdict : Verdict) (told : List LocalEntry) → IsSound (handed event cell.host) → cell_step cell event ≡ Ok ((verdict, told), after) → Reads (handed event cell.host) (steps_in told) after.host }
{}

/// An item that stands whole at the front of bytes stands there whatever follows them, and has as many bytes.
pub fn an_item_stays_itself()
    ensures { (e : Expected) (bytes more : List ℕ) (item : Item) → (reading e bytes).0 ≡ Whole item → ((reading e (bytes ++ more)).0 ≡ Whole item) × ((reading e (bytes ++ more)).1 ≡ (reading e bytes).1) }
{}

/// What is read is what was written: where bytes, and those that are to come behind them, are the spellings of items, the
/// first of the kind that is expected, then the items that are read are the first of these, and what is left, with what
/// is to come, is the spellings of the others.
pub fn read_as_written()
    ensures { (e next : Expected) (bytes left unread : List ℕ) (all items : List Item) → bytes ++ unread ≡ spellings all → MayFollow e all → AreRead e bytes items next left → AreReadOf all items next left unread }
{}
