//! The laws of items at a host: what a host keeps unread is whole items handled one after another, until none is left.
//! And what no step changes: where a host is, and who its nodes are.
//!
//! No code: laws as clauses of empty functions, over the model below. The code of cells stands above, which handles
//! items until there is none, and so do the laws of a whole world.
#![tactic(auto)]

ghost use Rattle.std.specs.Prelude.{◌≡◌, ◌<◌, ℕ, List, [], None, Some, Ok, find, Option};
ghost use Rattle.ch_base.specs.declared.address.Address.{Address};
ghost use Rattle.ch_model.specs.declared.step.Step.{Step};
ghost use Rattle.ch_model.specs.declared.step.Weight.{Weight};
ghost use Rattle.ch_model.specs.HostState.{HostState};
ghost use Rattle.ch_model.specs.HostCalls.{host_new, host_connect, host_send, host_close, host_close_endpoint};
ghost use Rattle.ch_model.specs.declared.step.SocketEvent.{SocketEvent};
ghost use Rattle.ch_model.specs.Host.{host_on, host_next};
ghost use Rattle.ch_model.specs.declared.local.LocalEntry.{LocalEntry};
ghost use Rattle.ch_model.specs.WorldState.{Cell};
ghost use Rattle.ch_model.specs.CellSteps.{◌then◌, kept_bytes, steps_on, all_items};
ghost use Rattle.ch_laws_items.specs.Kept.{Apart, AllKeepNoMore};
ghost use Rattle.ch_base.specs.declared.event.Event.{Event};
ghost use Rattle.ch_base.specs.declared.event.Room.{Room};
ghost use Rattle.ch_static.specs.declared.command.Command.{Command};
ghost use Rattle.ch_model.specs.declared.act.Act.{Act};
ghost use Rattle.ch_model.specs.declared.entry.Verdict.{Verdict};
ghost use Rattle.ch_model.specs.declared.local.LocalEvent.{LocalEvent};
ghost use Rattle.ch_model.specs.NodeState.{NodeState};
ghost use Rattle.ch_model.specs.Node.{node_make, node_command, node_event, node_shut};
ghost use Rattle.ch_model.specs.CellSteps.{is_at};
ghost use Rattle.ch_model.specs.Cell.{cell_step};
ghost use Rattle.ch_laws_items.specs.Stays.{HostStays, NodeStays, CellStays};

/// No two sockets of a host have one number: a new host has none, and what an endpoint asks and events of sockets keep it
/// so, as does each item that is handled.
pub fn numbers_differ()
    ensures fresh { (host : List ℕ) (port : ℕ) (circle : List (List ℕ)) → Apart (host_new host port circle).sockets }
    ensures on { (host after : HostState) (event : SocketEvent) (steps : List Step) → Apart host.sockets → host_on host event ≡ Ok (steps, after) → Apart after.sockets }
    ensures next { (host after : HostState) (steps : List Step) → Apart host.sockets → host_next host ≡ Ok (Some steps, after) → Apart after.sockets }
    ensures connect { (host after : HostState) (end : ℕ) (peer : Address) (conn : ℕ) (steps : List Step) → Apart host.sockets → host_connect host end peer conn ≡ Ok (steps, after) → Apart after.sockets }
    ensures send { (host after : HostState) (end conn : ℕ) (payload : List ℕ) (weight : Weight) (steps : List Step) → Apart host.sockets → host_send host end conn payload weight ≡ Ok (steps, after) → Apart after.sockets }
    ensures close { (host after : HostState) (end conn : ℕ) (steps : List Step) → Apart host.sockets → host_close host end conn ≡ Ok (steps, after) → Apart after.sockets }
    ensures close_endpoint { (host after : HostState) (end : ℕ) (steps : List Step) → Apart host.sockets → host_close_endpoint host end ≡ Ok (steps, after) → Apart after.sockets }
{}

/// What an endpoint asks of its host leaves no more bytes unread than there were.
pub fn asking_keeps_no_more()
    ensures connect { (host : HostState) (end : ℕ) (peer : Address) (conn : ℕ) → AllKeepNoMore host (host_connect host end peer conn) }
    ensures send { (host : HostState) (end conn : ℕ) (payload : List ℕ) (weight : Weight) → AllKeepNoMore host (host_send host end conn payload weight) }
    ensures close { (host : HostState) (end conn : ℕ) → AllKeepNoMore host (host_close host end conn) }
    ensures close_endpoint { (host : HostState) (end : ℕ) → AllKeepNoMore host (host_close_endpoint host end) }
{}

/// Each item that is handled leaves fewer bytes unread. Where there is none, the host is as it was.
pub fn items_are_used_up()
    ensures fewer { (host after : HostState) (steps : List Step) → Apart host.sockets → host_next host ≡ Ok (Some steps, after) → kept_bytes after < kept_bytes host }
    ensures no_more { (host after : HostState) → host_next host ≡ Ok (None, after) → after ≡ host }
{}

/// What is unread at a cell is handled one item after another, each with all its consequences before the next, until no
/// socket has a whole one. How many there may be, which the model counts by bytes, is never too few.
pub fn one_after_another()
    ensures none { (cell : Cell) (after : HostState) → Apart cell.host.sockets → host_next cell.host ≡ Ok (None, after) → all_items cell ≡ Ok ([], cell) }
    ensures one { (cell : Cell) (after : HostState) (steps : List Step) → Apart cell.host.sockets → host_next cell.host ≡ Ok (Some steps, after)
        → all_items cell ≡ (steps_on steps (record cell { host = after }) then all_items) }
    ensures until_none { (cell after : Cell) (entries : List LocalEntry) → Apart cell.host.sockets → all_items cell ≡ Ok (entries, after)
        → host_next after.host ≡ Ok (None, after.host) }
{}

/// A host keeps its text, its port, the host texts that it takes, and the numbers of its endpoints, whatever it is handed
/// or asked.
pub fn host_stays()
    ensures on { (host after : HostState) (event : SocketEvent) (steps : List Step) → host_on host event ≡ Ok (steps, after) → HostStays host after }
    ensures next { (host after : HostState) (steps : Option (List Step)) → host_next host ≡ Ok (steps, after) → HostStays host after }
    ensures connect { (host after : HostState) (end : ℕ) (peer : Address) (conn : ℕ) (steps : List Step) → host_connect host end peer conn ≡ Ok (steps, after) → HostStays host after }
    ensures send { (host after : HostState) (end conn : ℕ) (payload : List ℕ) (weight : Weight) (steps : List Step) → host_send host end conn payload weight ≡ Ok (steps, after) → HostStays host after }
    ensures close { (host after : HostState) (end conn : ℕ) (steps : List Step) → host_close host end conn ≡ Ok (steps, after) → HostStays host after }
    ensures close_endpoint { (host after : HostState) (end : ℕ) (steps : List Step) → host_close_endpoint host end ≡ Ok (steps, after) → HostStays host after }
{}

/// A node keeps its own address, its unique number and its labels, whatever it hears or is asked.
pub fn node_stays()
    ensures make { (node after : NodeState) (acts : List Act) → node_make node ≡ Ok (acts, after) → NodeStays node after }
    ensures command { (node after : NodeState) (by : ℕ) (command : Command) (room : Room) (acts : List Act) → node_command node by command room ≡ Ok (acts, after) → NodeStays node after }
    ensures event { (node after : NodeState) (event : Event) (acts : List Act) → node_event node event ≡ Ok (acts, after) → NodeStays node after }
    ensures shut { (node after : NodeState) (acts : List Act) → node_shut node ≡ Ok (acts, after) → NodeStays node after }
{}

/// A cell keeps its host where it is, and each node at its endpoint, whatever it makes of an event.
pub fn cell_stays()
    ensures step { (cell after : Cell) (event : LocalEvent) (done : Verdict × List LocalEntry) → cell_step cell event ≡ Ok (done, after) → CellStays cell after }
    ensures node { (cell after : Cell) (event : LocalEvent) (done : Verdict × List LocalEntry) (end : ℕ) (node : ℕ × NodeState) → cell_step cell event ≡ Ok (done, after) → find (is_at end) cell.nodes ≡ Some node
        → (next : ℕ × NodeState) × (find (is_at end) after.nodes ≡ Some next) × NodeStays node.1 next.1 }
{}
