//! The laws of a host's links and sockets: each says the same of the other, whatever happens, and the steps that a host
//! tells say which of its ends are up.
//!
//! No code: laws as clauses of empty functions, over the model below. The laws of the log, and of items at a host, stand
//! beside; those of the race for one socket stand above, and ask of hosts what is shown here.
#![tactic(auto)]

ghost use Rattle.std.specs.Prelude.{◌≡◌, ◌⊎◌, ℕ, List, Bool, true, false, find, slice_get, Some, None, Ok, IsTrue, is_some};
ghost use Rattle.ch_base.specs.declared.address.Address.{Address};
ghost use Rattle.ch_link.specs.Sockets.{names};
ghost use Rattle.ch_link.specs.declared.LinkState.TheVariants.{Dialing, Up};
ghost use Rattle.ch_model.specs.declared.entry.Entry.{Entry};
ghost use Rattle.ch_model.specs.declared.entry.Verdict.{Verdict};
ghost use Rattle.ch_model.specs.declared.line.Line.{Line};
ghost use Rattle.ch_model.specs.declared.local.LocalEntry.{LocalEntry};
ghost use Rattle.ch_model.specs.declared.local.LocalEvent.{LocalEvent};
ghost use Rattle.ch_model.specs.declared.name.End.{End};
ghost use Rattle.ch_model.specs.declared.name.SockName.{SockName};
ghost use Rattle.ch_model.specs.declared.step.SocketEvent.{SocketEvent};
ghost use Rattle.ch_model.specs.declared.step.Step.{Step};
ghost use Rattle.ch_model.specs.declared.step.Weight.{Weight};
ghost use Rattle.ch_model.specs.Cell.{cell_step};
ghost use Rattle.ch_model.specs.Host.{host_on, host_next};
ghost use Rattle.ch_model.specs.HostCalls.{host_new, host_open, host_connect, host_send, host_close, host_close_endpoint};
ghost use Rattle.ch_model.specs.HostState.{Socket, HostState};
ghost use Rattle.ch_model.specs.HostSteps.{link_with, is_socket};
ghost use Rattle.ch_model.specs.Links.{has_risen, is_closed, rises_once, falls_from_up, leaves_unrisen, rests_closed};
ghost use Rattle.ch_model.specs.Logs.{each};
ghost use Rattle.ch_model.specs.Stages.{is_ended};
ghost use Rattle.ch_model.specs.World.{world_new, log_from};
ghost use Rattle.ch_model.specs.WorldSockets.{find_end};
ghost use Rattle.ch_model.specs.WorldState.{Cell, World};
ghost use Rattle.ch_laws_log.specs.HostEnds.{steps_in};
ghost use Rattle.ch_laws_links.specs.Cells.{standing_local, ComesFreeTo, IsNamingCell};
ghost use Rattle.ch_laws_links.specs.Naming.{IsNaming, IsDialedBy, IsUpFor, IsUnasked};
ghost use Rattle.ch_laws_links.specs.Risings.{IsToldAs};
ghost use Rattle.ch_laws_links.specs.Scenes.{dialing_host, answered_host, accepted_host};
ghost use Rattle.ch_laws_links.specs.Standing.{IsPending, IsOpen, IsRisen, standing_at, standing_heard, ComesFree, TellsEnds};

/// In a host that is naming a link that dials a socket has an opener's end there, pending or open, which is for it and
/// expects its answer; and one that is up has an open end, which is for it and expects frames. The other way round, the
/// link of each end that has a user and hasn't ended dials it, or is up on it; and an end without a user is a target's, open,
/// which expects its request. So an end is up just where a link is up on it.
pub fn naming_says()
    ensures dialing { (host : HostState) (end : ℕ) (peer : Address) (n : ℕ) → IsNaming host → (link_with host end peer).state ≡ Dialing n → (socket : Socket) × (find (is_socket n) host.sockets ≡ Some socket) × IsDialedBy end peer socket }
    ensures up { (host : HostState) (end : ℕ) (peer : Address) (n : ℕ) (probed : Bool) → IsNaming host → (link_with host end peer).state ≡ Up n probed → (socket : Socket) × (find (is_socket n) host.sockets ≡ Some socket) × IsUpFor end peer socket }
    ensures used { (host : HostState) (end : ℕ) (peer : Address) (n : ℕ) (socket : Socket) → IsNaming host → find (is_socket n) host.sockets ≡ Some socket → socket.user ≡ Some (end, peer) → is_ended socket.stage ≡ false
        → (((link_with host end peer).state ≡ Dialing n) × IsDialedBy end peer socket) ⊎ ((probed : Bool) × ((link_with host end peer).state ≡ Up n probed) × IsUpFor end peer socket) }
    ensures unused { (host : HostState) (n : ℕ) (socket : Socket) → IsNaming host → find (is_socket n) host.sockets ≡ Some socket → socket.user ≡ None → is_ended socket.stage ≡ false → IsUnasked socket }
    ensures rises { (host : HostState) (end : ℕ) (peer : Address) (n : ℕ) (probed : Bool) → IsNaming host → (link_with host end peer).state ≡ Up n probed → standing_at host n ≡ Some IsRisen }
    ensures risen { (host : HostState) (n : ℕ) → IsNaming host → standing_at host n ≡ Some IsRisen → (end : ℕ) × (peer : Address) × (probed : Bool) × ((link_with host end peer).state ≡ Up n probed) }
{}

/// A host is naming, whatever happens: a new one is, and stays so when an endpoint is opened. So it does after whatever
/// happens to a socket or a timer, where a socket that comes has an odd number, as worlds give, which is free; after each
/// item that is handled; and after all that an endpoint asks.
pub fn hosts_are_naming()
    ensures fresh { (host : List ℕ) (port : ℕ) (circle : List (List ℕ)) → IsNaming (host_new host port circle) }
    ensures open { (host : HostState) (end : ℕ) → IsNaming host → IsNaming (host_open host end).1 }
    ensures on { (host after : HostState) (event : SocketEvent) (told : List Step) → ComesFree host event → IsNaming host → host_on host event ≡ Ok (told, after) → IsNaming after }
    ensures next { (host after : HostState) (told : List Step) → IsNaming host → host_next host ≡ Ok (Some told, after) → IsNaming after }
    ensures connect { (host after : HostState) (end : ℕ) (peer : Address) (conn : ℕ) (told : List Step) → IsNaming host → host_connect host end peer conn ≡ Ok (told, after) → IsNaming after }
    ensures send { (host after : HostState) (end conn : ℕ) (payload : List ℕ) (weight : Weight) (told : List Step) → IsNaming host → host_send host end conn payload weight ≡ Ok (told, after) → IsNaming after }
    ensures close { (host after : HostState) (end conn : ℕ) (told : List Step) → IsNaming host → host_close host end conn ≡ Ok (told, after) → IsNaming after }
    ensures close_endpoint { (host after : HostState) (end : ℕ) (told : List Step) → IsNaming host → host_close_endpoint host end ≡ Ok (told, after) → IsNaming after }
{}

/// The steps that a naming host tells say which of its ends are up. Each step is one that may be told, after those before
/// it: what comes up was open and not up, what goes down was up, and what is left wasn't; nothing is read or written but
/// where an end is open. After the steps each end stands as they say. An end that an event joins, or that comes, is open
/// before its steps. In the scene of a host that dials its end is pending, then open, then up.
pub fn steps_tell_ends()
    ensures on { (host after : HostState) (event : SocketEvent) (told : List Step) → ComesFree host event → IsNaming host → host_on host event ≡ Ok (told, after) → TellsEnds (λ n. standing_heard event n (standing_at host n)) told after }
    ensures next { (host after : HostState) (told : List Step) → IsNaming host → host_next host ≡ Ok (Some told, after) → TellsEnds (standing_at host) told after }
    ensures connect { (host after : HostState) (end : ℕ) (peer : Address) (conn : ℕ) (told : List Step) → IsNaming host → host_connect host end peer conn ≡ Ok (told, after) → TellsEnds (standing_at host) told after }
    ensures send { (host after : HostState) (end conn : ℕ) (payload : List ℕ) (weight : Weight) (told : List Step) → IsNaming host → host_send host end conn payload weight ≡ Ok (told, after) → TellsEnds (standing_at host) told after }
    ensures close { (host after : HostState) (end conn : ℕ) (told : List Step) → IsNaming host → host_close host end conn ≡ Ok (told, after) → TellsEnds (standing_at host) told after }
    ensures close_endpoint { (host after : HostState) (end : ℕ) (told : List Step) → IsNaming host → host_close_endpoint host end ≡ Ok (told, after) → TellsEnds (standing_at host) told after }
    ensures such { (standing_at dialing_host 0 ≡ Some IsPending) × (standing_at answered_host 0 ≡ Some IsOpen) × (standing_at accepted_host 0 ≡ Some IsRisen) }
{}

/// So it is of a cell, a host with its nodes: it stays naming, whatever it makes of an event; and of all that followed the
/// steps, in the order in which they were told, say which of its host's ends are up.
pub fn cells_are_naming()
    ensures step { (cell after : Cell) (event : LocalEvent) (verdict : Verdict) (told : List LocalEntry) → ComesFreeTo cell.host event → IsNaming cell.host → cell_step cell event ≡ Ok ((verdict, told), after) → IsNaming after.host }
    ensures tells { (cell after : Cell) (event : LocalEvent) (verdict : Verdict) (told : List LocalEntry) → ComesFreeTo cell.host event → IsNaming cell.host → cell_step cell event ≡ Ok ((verdict, told), after)
        → TellsEnds (λ n. standing_local event n (standing_at cell.host n)) (steps_in told) after.host }
{}

/// In the world after any lines of any journal, settling included, the host of each cell is naming, and the numbers of the
/// next sockets that it accepts are free.
pub fn worlds_are_naming()
    ensures { (journal lines : List Line) (log : List Entry) (world : World) (place : ℕ) (cell : Cell × ℕ) → log_from (world_new journal) lines ≡ Ok (log, world) → slice_get world.cells place ≡ Some cell → IsNamingCell cell }
{}

/// In the log of every journal, after any lines, settling included, an end comes up at most once, goes down only from up,
/// and is left only if it never came up; and once it is closed it neither comes up, nor is closed again, nor writes, nor is
/// fed. These are four of the nine rules of links.
pub fn ends_rise_once()
    ensures once { (journal lines : List Line) (log : List Entry) (world : World) → log_from (world_new journal) lines ≡ Ok (log, world) → IsTrue (each rises_once log) }
    ensures from_up { (journal lines : List Line) (log : List Entry) (world : World) → log_from (world_new journal) lines ≡ Ok (log, world) → IsTrue (each falls_from_up log) }
    ensures unrisen { (journal lines : List Line) (log : List Entry) (world : World) → log_from (world_new journal) lines ≡ Ok (log, world) → IsTrue (each leaves_unrisen log) }
    ensures rests { (journal lines : List Line) (log : List Entry) (world : World) → log_from (world_new journal) lines ≡ Ok (log, world) → IsTrue (each rests_closed log) }
{}

/// The log tells how each end stands at its host: one that is up came up by the log and isn't closed there, one that is
/// pending, or open and not up, never came up and isn't closed, and one that has ended is closed.
pub fn logs_tell_ends()
    ensures { (journal lines : List Line) (log : List Entry) (world : World) (place : ℕ) (cell : Cell × ℕ) (n : ℕ) (at : SockName × End) → log_from (world_new journal) lines ≡ Ok (log, world) → slice_get world.cells place ≡ Some cell → find_end place n world.sockets ≡ Some at
        → IsToldAs (standing_at cell.0.host n) (has_risen log at.0 at.1) (is_closed log at.0 at.1) }
{}

/// A cell of a world has an end under a number exactly if its host has a socket of that number: so what a link names is an end
/// of the world, and the numbers of a host's next sockets are no end's.
pub fn numbers_are_shared()
    ensures shared { (journal lines : List Line) (log : List Entry) (world : World) (place : ℕ) (cell : Cell × ℕ) (n : ℕ) → log_from (world_new journal) lines ≡ Ok (log, world) → slice_get world.cells place ≡ Some cell
        → is_some (find_end place n world.sockets) ≡ is_some (find (is_socket n) cell.0.host.sockets) }
    ensures named { (journal lines : List Line) (log : List Entry) (world : World) (place : ℕ) (cell : Cell × ℕ) (end : ℕ) (peer : Address) (n : ℕ) → log_from (world_new journal) lines ≡ Ok (log, world) → slice_get world.cells place ≡ Some cell
        → names (link_with cell.0.host end peer).state n ≡ true → is_some (find_end place n world.sockets) ≡ true }
{}
