//! The laws of places: at each end of a socket the place of a message stands by the frame that carries it.
//!
//! No code: definitions, and laws as clauses of empty functions. What happens in a journal, as calls of hosts, is defined below;
//! that hosts and world agree, and what links and sockets say of each other, is given here.
#![tactic(auto)]

ghost use Rattle.std.specs.Prelude.{◌≡◌, ℕ, List, [], ◌∷◌, Some, Ok};
ghost use Rattle.ch_reader.specs.declared.item.Item.{Item};
ghost use Rattle.ch_model.specs.declared.entry.Entry.{Entry};
ghost use Rattle.ch_model.specs.declared.line.Line.{Line};
ghost use Rattle.ch_model.specs.declared.name.End.{End};
ghost use Rattle.ch_model.specs.declared.step.Step.{Step};
ghost use Rattle.ch_model.specs.declared.step.Step.TheVariants as steps;
ghost use Rattle.ch_model.specs.Host.{host_next};
ghost use Rattle.ch_model.specs.HostState.{HostState};
ghost use Rattle.ch_model.specs.World.{world_new};
ghost use Rattle.ch_model.specs.WorldSockets.{end_of};
ghost use Rattle.ch_model.specs.WorldState.{Cell, WorldSocket, World};
ghost use Rattle.ch_model.specs.WorldSteps.{stepped};
ghost use Rattle.ch_laws_calls.specs.Calls.{KeepsCalls};
ghost use Rattle.ch_laws_calls.specs.Sound.{Sound};
ghost use Rattle.ch_laws_log.specs.HostEnds.{IsSound};
ghost use Rattle.ch_laws_places.specs.Places.{Placed, TakesPlace, StandsNext, IsNext};

/// At each end that isn't over, of each socket whose opener is a host's and may ask only what can be read: what the end's host has
/// to read, and what is unread behind it, are items, and the end has as many places, each of which stands by its item: the place of
/// a message by a frame of data alone. Of what waits for a link, too, only a frame of data has the place of a message. So it is
/// where nothing has happened, and whatever happens in a sound world keeps it: what is written brings an item and its place, what
/// is read takes the first of each, and bytes that are fed leave the places as they are.
pub fn places_stand_by_items()
    ensures fresh { (journal : List Line) → Placed journal [] (world_new journal) }
    ensures kept { (journal : List Line) → KeepsCalls journal (Sound journal) (Sound journal) (Placed journal) }
{}

/// So the place that the world takes as the last one, when a host reads an item, is the first at that end, and stands by the item
/// that is read: that it is read is told first of all in its turn, in a world whose sockets are as they were. And what a turn tells as
/// read stood whole at the front of that socket's bytes.
pub fn place_of_read()
    ensures turn { (host after : HostState) (n : ℕ) (rest : List Step) → IsSound host → host_next host ≡ Ok (Some (steps.Read n ∷ rest), after) → (item : Item) × StandsNext host n item }
    ensures place { (journal : List Line) (log : List Entry) (world now : World) (place n : ℕ) (cell : Cell) (socket : WorldSocket) (e : End) (item : Item) → Sound journal log world → Placed journal log world → IsNext journal world place n socket e item → now.sockets ≡ world.sockets
        → TakesPlace item (end_of e socket).places (stepped place cell (steps.Read n) now).1.last }
{}
