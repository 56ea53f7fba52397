//! The laws of the accounts of bytes, for the journals of many nodes: that nodes write whole items, and what their requests
//! say; and for every host, by which items its links come up.
//!
//! No code: laws as clauses of empty functions. The grammar, the model, and the laws of what is written, of links and of
//! the journals of many nodes stand below.
#![tactic(auto)]

ghost use Rattle.std.specs.Prelude.{◌≡◌, ℕ, List, Some, Ok, IsTrue};
ghost use Rattle.std.specs.List.{list_all};
ghost use Rattle.ch_base.specs.declared.address.Address.{Address};
ghost use Rattle.ch_model.specs.declared.entry.Entry.{Entry};
ghost use Rattle.ch_model.specs.AccountsBytes.{writes_an_item, requests_by_name};
ghost use Rattle.ch_model.specs.declared.step.SocketEvent.{SocketEvent};
ghost use Rattle.ch_model.specs.declared.step.Step.{Step};
ghost use Rattle.ch_model.specs.declared.step.Weight.{Weight};
ghost use Rattle.ch_model.specs.Host.{host_on, host_next};
ghost use Rattle.ch_model.specs.HostCalls.{host_connect, host_send, host_close, host_close_endpoint};
ghost use Rattle.ch_model.specs.HostState.{HostState};
ghost use Rattle.ch_model.specs.Journal.{journal_of};
ghost use Rattle.ch_model.specs.LinesBuilt.{many_nodes};
ghost use Rattle.ch_model.specs.Logs.{each};
ghost use Rattle.ch_model.specs.World.{names_of, log_of};
ghost use Rattle.ch_laws_bytes.specs.Streams.{AreAddresses};
ghost use Rattle.ch_laws_links.specs.Naming.{IsNaming};
ghost use Rattle.ch_laws_accounts.specs.Openers.{is_of_declared};
ghost use Rattle.ch_laws_accounts.specs.Ups.{AllUps, IsRaised};
ghost use Rattle.ch_laws_accounts.specs.Written.{WritesAndFeeds};

/// In the log of each journal that the grammar of many nodes reads, an opener's end that is joined, or that writes, is of a
/// declared name; and no stranger knocks there. It is joined by a line, which names declared nodes alone, and it writes
/// only where its host has it open.
pub fn openers_are_declared()
    ensures { (bytes : List ℕ) (log : List Entry) → log_of (journal_of many_nodes bytes) ≡ Ok log → IsTrue (list_all (is_of_declared (names_of (journal_of many_nodes bytes))) log) }
{}

/// So what an opener's end writes first is a request from the address of its node, as the journal declares it.
pub fn requests_by_their_names()
    ensures { (bytes : List ℕ) (log : List Entry) → log_of (journal_of many_nodes bytes) ≡ Ok log → IsTrue (each (requests_by_name (journal_of many_nodes bytes)) log) }
{}

/// Each address that such a journal declares is one that may be spelled, as it was read.
pub fn addresses_are_read()
    ensures { (bytes : List ℕ) → AreAddresses (names_of (journal_of many_nodes bytes)) }
{}

/// So each writing of an end is one item: a request or an answer first, and then frames; requests may be read, too.
pub fn nodes_write_items()
    ensures { (bytes : List ℕ) (log : List Entry) → log_of (journal_of many_nodes bytes) ≡ Ok log → IsTrue (each (writes_an_item (journal_of many_nodes bytes)) log) }
{}

/// With what is proved below, five of the nine accounts of bytes: each writing is one item, requests are from their node's
/// address, nothing is written after a refusal, and what is fed was unread, to the end of input.
pub fn writes_and_feeds()
    ensures { (bytes : List ℕ) (log : List Entry) → log_of (journal_of many_nodes bytes) ≡ Ok log → WritesAndFeeds (journal_of many_nodes bytes) log }
{}

/// Where a host whose links and sockets say the same of each other handles an item, a link comes up only on a socket at
/// the front of whose bytes stands a request, or the answer that accepts. By nothing else that a host does a link comes up.
pub fn ups_are_read()
    ensures next { (host after : HostState) (told : List Step) → IsNaming host → host_next host ≡ Ok (Some told, after) → AllUps (IsRaised host) told }
    ensures on { (host after : HostState) (event : SocketEvent) (told : List Step) → host_on host event ≡ Ok (told, after) → AllUps (λ n. ⊥) told }
    ensures connect { (host after : HostState) (end : ℕ) (peer : Address) (conn : ℕ) (told : List Step) → host_connect host end peer conn ≡ Ok (told, after) → AllUps (λ n. ⊥) told }
    ensures send { (host after : HostState) (end conn : ℕ) (payload : List ℕ) (weight : Weight) (told : List Step) → host_send host end conn payload weight ≡ Ok (told, after) → AllUps (λ n. ⊥) told }
    ensures close { (host after : HostState) (end conn : ℕ) (told : List Step) → host_close host end conn ≡ Ok (told, after) → AllUps (λ n. ⊥) told }
    ensures close_endpoint { (host after : HostState) (end : ℕ) (told : List Step) → host_close_endpoint host end ≡ Ok (told, after) → AllUps (λ n. ⊥) told }
{}
