//! The laws of what arrives: a message between two nodes is got by the bytes that were fed last, and in the order in which it was
//! written.
//!
//! No code: definitions, and laws as clauses of empty functions. What was said, written, read and got is defined below, and how
//! what is carried is told by the log's own definitions. That each message that is got from another node is the one that is
//! carried next is given here.

ghost use Rattle.std.specs.Prelude.{◌≡◌, ◌≤◌, ℕ, List, [], ◌++◌, length};
ghost use Rattle.ch_reader.specs.Reading.{reading};
ghost use Rattle.ch_reader.specs.declared.item.Expected.{Expected};
ghost use Rattle.ch_reader.specs.declared.item.Front.TheVariants.{Whole};
ghost use Rattle.ch_reader.specs.declared.item.Item.{Item};
ghost use Rattle.ch_model.specs.declared.line.Line.{Line};
ghost use Rattle.ch_model.specs.World.{world_new};
ghost use Rattle.ch_laws_calls.specs.Turns.{KeepsTurns};
ghost use Rattle.ch_laws_peers.specs.Standing.{IsOfNodes, Standing};
ghost use Rattle.ch_laws_messages.specs.WayReadingGoes.{ReadingGoes};
ghost use Rattle.ch_laws_messages.specs.GotReadingGoes.{KnownGot};
ghost use Rattle.ch_laws_messages.specs.ArrivedFed.{LastFed};
ghost use Rattle.ch_laws_messages.specs.ArrivedGets.{GetsNexts, Arrives, AreGotSo};

/// An item at the front of bytes that is no longer than the first of them stands whole at the front of those alone.
pub fn items_are_their_bytes()
    ensures { (e : Expected) (xs ys : List ℕ) (item : Item) → (reading e (xs ++ ys)).0 ≡ Whole item → (reading e (xs ++ ys)).1 ≤ length xs → (reading e xs).0 ≡ Whole item }
{}

/// Where an item stands whole at the front of what a host holds of an end, the last feeding was to that end, and the item ends within
/// it: before those bytes came it wasn't whole. So it is where nothing has happened, and each turn keeps it where hosts and world
/// agree: no host has a whole item left when bytes are fed, what is read is taken from the front, and nothing else is held.
pub fn whole_items_were_fed_last()
    ensures fresh { (journal : List Line) → LastFed [] (world_new journal) }
    ensures kept { (journal : List Line) → IsOfNodes journal → KeepsTurns journal (Standing journal) (Standing journal) LastFed }
{}

/// A message between two nodes is got by a frame that carries it, whose last byte is among those that were fed last; and all that was
/// got of what the one said to the other was written before it. So it is where nothing has happened; and each turn keeps it, where
/// each message that is got from another node, as a host reads an item, is the one that is carried next between the two. What a node
/// makes or is asked to do gets messages within the node alone, of which nothing is written.
pub fn messages_arrive_in_order()
    ensures fresh { (journal : List Line) → AreGotSo journal [] (world_new journal) }
    ensures kept { (journal : List Line) → IsOfNodes journal → ReadingGoes journal → GetsNexts journal (KnownGot journal) (KnownGot journal) → KeepsTurns journal (Arrives journal) (KnownGot journal) (AreGotSo journal) }
{}
