//! The laws of what plain hosts read: what an item brings to a node, and to the connections that have arrived there.
//!
//! A host hands at most one event to one node as it reads an item: that a connection was opened, one was closed, a payload has
//! come on one, or a link has failed. Here it is said which, with the frame that was read and with what it changes of the
//! connections that have arrived, in words that those who follow the nodes can cite without the host's tables.
//!
//! No code: definitions, and laws as clauses of empty functions, over the model below.

ghost use Rattle.std.specs.Prelude.{◌≡◌, ℕ, List, [], find, Some, Ok};
ghost use Rattle.ch_base.specs.declared.address.Address.{Address};
ghost use Rattle.ch_model.specs.declared.step.SocketEvent.TheVariants.{Ended};
ghost use Rattle.ch_model.specs.declared.step.Step.{Step};
ghost use Rattle.ch_model.specs.Host.{host_on, host_next};
ghost use Rattle.ch_model.specs.HostState.{HostState};
ghost use Rattle.ch_laws_calls.specs.FitsTurns.{bytes_at, NoDials};
ghost use Rattle.ch_laws_links.specs.Naming.{IsNaming};
ghost use Rattle.ch_laws_plain.specs.Talks.{HostIsPlain};
ghost use Rattle.ch_laws_plain.specs.Turns.{WriterPlain};
ghost use Rattle.ch_laws_writes.specs.Dues.{due_at};
ghost use Rattle.ch_laws_writes.specs.Orderly.{IsOrderly};
ghost use Rattle.ch_laws_plain.specs.ReadsReading.{Reading};

/// An item that a host reads, and the end of a socket's input, brings one of five things. Nothing is posted, and all connections
/// that have arrived stand: what was read is of none. One was created, and its node hears of it under the next number. One was
/// closed. A payload came on one. Or a link failed, and nothing has arrived there any more. In each the frame was read at the end
/// that the link is up on, no other link's connections are changed, and each end of the host is still there.
pub fn items_bring()
    ensures next { (own : ℕ → Address) (host after : HostState) (told : List Step) → IsNaming host → IsOrderly own host → HostIsPlain host → host_next host ≡ Ok (Some told, after) → Reading host told after }
    ensures ended { (own : ℕ → Address) (host after : HostState) (sock : ℕ) (told : List Step) → IsNaming host → IsOrderly own host → host_on host (Ended sock) ≡ Ok (told, after) → Reading host told after }
{}

/// As the input of a socket ends a host writes nothing at any end, which is a plain stream of items that are due there; and where
/// it was plain it stays so.
pub fn input_ends_in_silence()
    ensures silent { (host after : HostState) (sock : ℕ) (told : List Step) → host_on host (Ended sock) ≡ Ok (told, after) → (n : ℕ) → bytes_at n told ≡ [] }
    ensures writes { (own : ℕ → Address) (host after : HostState) (sock : ℕ) (told : List Step) → host_on host (Ended sock) ≡ Ok (told, after) → (n : ℕ) → WriterPlain own (due_at host n) (bytes_at n told) }
    ensures plain { (host after : HostState) (sock : ℕ) (told : List Step) → HostIsPlain host → host_on host (Ended sock) ≡ Ok (told, after) → HostIsPlain after }
{}

/// A host dials nothing as it reads an item, nor as the input of a socket ends.
pub fn readers_dial_nothing()
    ensures next { (host after : HostState) (told : List Step) → host_next host ≡ Ok (Some told, after) → NoDials told }
    ensures ended { (host after : HostState) (sock : ℕ) (told : List Step) → host_on host (Ended sock) ≡ Ok (told, after) → NoDials told }
{}
