//! The laws of users: whose link a target's end is for, and what it is asked.
//!
//! A node that dials writes its request on the new socket, and the target's host keeps whose link that request asks. So its end is
//! for a link that is called as the socket is. Here that is shown of each small thing that happens, where hosts and
//! world agree on ends, bytes and links before it and after it.
//!
//! No code: laws as clauses of empty functions, over the model below.

ghost use Rattle.std.specs.Prelude.{◌≡◌, ℕ, List, [], ◌∷◌, codes, Some};
ghost use Rattle.ch_model.specs.declared.entry.Entry.{Entry};
ghost use Rattle.ch_model.specs.Journal.{journal_of};
ghost use Rattle.ch_model.specs.LinesBuilt.{many_nodes};
ghost use Rattle.ch_model.specs.World.{world_new, log_from};
ghost use Rattle.ch_model.specs.WorldState.{World};
ghost use Rattle.ch_laws_bytes.specs.Scene.{address_a};
ghost use Rattle.ch_laws_calls.specs.Calls.{KeepsCalls};
ghost use Rattle.ch_laws_calls.specs.Sound.{Sound};
ghost use Rattle.ch_laws_calls.specs.Users.{AllUsed};
ghost use Rattle.ch_laws_calls.specs.UsersKept.{AreUsers};
ghost use Rattle.ch_laws_calls.specs.UsersScenes.{asked, targets_in};

/// Each thing that happens in a journal of many nodes, of whatever bytes, keeps of each socket: that its opener is of a host of
/// the journal, whose text the socket has; that its target's end leads to the address that is called as its target, and that
/// host's record of it knows the opener's host text and is for the link that the socket is called by; that what is unread there
/// before the first item is the opener's request, or nothing while that is due; and that what is unread at the opener before its
/// answer begins with no answer that its host text is false. So it is in the new world, in which no socket is.
pub fn users_are_kept()
    ensures kept { (bytes : List ℕ) → KeepsCalls (journal_of many_nodes bytes) (Sound (journal_of many_nodes bytes)) (Sound (journal_of many_nodes bytes)) (AreUsers (journal_of many_nodes bytes)) }
    ensures start { (bytes : List ℕ) → AreUsers (journal_of many_nodes bytes) [] (world_new (journal_of many_nodes bytes)) }
{}

/// Where that is so, each socket is used as its name says; and so it is in the new world. In the scene of a request that is read the
/// target's host knows the opener's host text, and the target's end is for its own first endpoint with the opener's node.
pub fn sockets_are_used()
    ensures law { (bytes : List ℕ) (log : List Entry) (world : World) → AreUsers (journal_of many_nodes bytes) log world → AllUsed (journal_of many_nodes bytes) log world }
    ensures start { (bytes : List ℕ) → AllUsed (journal_of many_nodes bytes) [] (world_new (journal_of many_nodes bytes)) }
    ensures such { targets_in (log_from (world_new asked) asked) ≡ (Some (codes "h"), Some (0, address_a)) ∷ [] }
{}
