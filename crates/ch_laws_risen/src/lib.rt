//! The laws of how links come up, for the journals of many nodes: by what was fed to an end, told by the log alone.
//!
//! No code: laws as clauses of empty functions. The grammar, the model, the laws of what a host reads, and what all that
//! happens in such a journal keeps stand below.
#![tactic(auto)]

ghost use Rattle.std.specs.Prelude.{◌≡◌, ℕ, List, Some, None, Ok, IsTrue};
ghost use Rattle.ch_base.specs.declared.address.Address.{Address};
ghost use Rattle.ch_model.specs.declared.entry.Entry.{Entry};
ghost use Rattle.ch_model.specs.declared.step.SocketEvent.{SocketEvent};
ghost use Rattle.ch_model.specs.declared.step.Step.{Step};
ghost use Rattle.ch_model.specs.declared.step.Weight.{Weight};
ghost use Rattle.ch_model.specs.AccountsBytes.{target_has_read, opener_has_read, accepts_next};
ghost use Rattle.ch_model.specs.Host.{host_on, host_next};
ghost use Rattle.ch_model.specs.HostCalls.{host_connect, host_send, host_close};
ghost use Rattle.ch_model.specs.HostState.{HostState};
ghost use Rattle.ch_model.specs.Journal.{journal_of};
ghost use Rattle.ch_model.specs.LinesBuilt.{many_nodes};
ghost use Rattle.ch_model.specs.Links.{target_rises_first};
ghost use Rattle.ch_model.specs.Logs.{each, each_between};
ghost use Rattle.ch_model.specs.World.{log_of};
ghost use Rattle.ch_laws_links.specs.Naming.{IsNaming};
ghost use Rattle.ch_laws_risen.specs.Risings.{EachUp, RisesSo, AcceptsAfter};

/// Where a host whose links and sockets say the same of each other handles an item, a link comes up on a socket at the
/// front of whose bytes stands the answer that accepts; or else that answer is written on it directly after.
pub fn targets_accept_next()
    ensures { (host after : HostState) (told : List Step) → IsNaming host → host_next host ≡ Ok (Some told, after) → EachUp (RisesSo host) told }
{}

/// A host writes the answer that accepts only directly after a link came up on that socket: where it handles an item, and
/// by whatever else happens to it.
pub fn hosts_accept_risen()
    ensures next { (host after : HostState) (told : List Step) → host_next host ≡ Ok (Some told, after) → AcceptsAfter None told }
    ensures on { (host after : HostState) (event : SocketEvent) (told : List Step) → host_on host event ≡ Ok (told, after) → AcceptsAfter None told }
    ensures connect { (host after : HostState) (end : ℕ) (peer : Address) (conn : ℕ) (told : List Step) → host_connect host end peer conn ≡ Ok (told, after) → AcceptsAfter None told }
    ensures send { (host after : HostState) (end conn : ℕ) (payload : List ℕ) (weight : Weight) (told : List Step) → host_send host end conn payload weight ≡ Ok (told, after) → AcceptsAfter None told }
    ensures close { (host after : HostState) (end conn : ℕ) (told : List Step) → host_close host end conn ≡ Ok (told, after) → AcceptsAfter None told }
{}

/// In the log of each journal that the grammar of many nodes reads, links come up by what was fed. A target's end comes
/// up once a whole request was fed to it, at the front of all that it was fed; an opener's, once the accepting answer
/// was, as its first four bytes. And directly after a target's end came up it writes that answer. A host has all that
/// was fed to an end until it has read the first item, and it reads that before the link comes up.
pub fn links_rise_by_bytes()
    ensures read_requests { (bytes : List ℕ) (log : List Entry) → log_of (journal_of many_nodes bytes) ≡ Ok log → IsTrue (each target_has_read log) }
    ensures read_answers { (bytes : List ℕ) (log : List Entry) → log_of (journal_of many_nodes bytes) ≡ Ok log → IsTrue (each opener_has_read log) }
    ensures accepted_next { (bytes : List ℕ) (log : List Entry) → log_of (journal_of many_nodes bytes) ≡ Ok log → IsTrue (each_between accepts_next log) }
{}

/// So an opener's end comes up after its target's: the answer that it read first is what its target wrote first, and that
/// is written only where the target's end came up.
pub fn targets_rise_first()
    ensures { (bytes : List ℕ) (log : List Entry) → log_of (journal_of many_nodes bytes) ≡ Ok log → IsTrue (each target_rises_first log) }
{}
