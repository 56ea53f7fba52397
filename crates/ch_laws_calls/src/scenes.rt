//! The laws of scenes: what is so of the scene of two nodes of a journal, in each world that the journal's lines make.
//!
//! No code: laws as clauses of empty functions, over the model below. What is so of such a world (`Sound`, `AllUsed` and `Peers`)
//! is given; that what happens to the two is moves of the machine of ch_race asks for these laws.

ghost use Rattle.std.specs.Prelude.{◌≡◌, ℕ, List, [], false, true};
ghost use Rattle.std.specs.Str.{bytes_eq};
ghost use Rattle.ch_model.specs.declared.entry.Entry.{Entry};
ghost use Rattle.ch_model.specs.declared.line.Line.{Line};
ghost use Rattle.ch_model.specs.Journal.{journal_of};
ghost use Rattle.ch_model.specs.LinesBuilt.{many_nodes};
ghost use Rattle.ch_model.specs.World.{names_of, world_new};
ghost use Rattle.ch_model.specs.WorldState.{World};
ghost use Rattle.ch_race.specs.Pair.{Side, start};
ghost use Rattle.ch_laws_log.specs.Declared.{is_declared};
ghost use Rattle.ch_laws_race.specs.Scene.{Party};
ghost use Rattle.ch_laws_race.specs.View.{view};
ghost use Rattle.ch_laws_calls.specs.Calls.{Anything, KeepsCalls};
ghost use Rattle.ch_laws_calls.specs.Peers.{Peers};
ghost use Rattle.ch_laws_calls.specs.Scenes.{IsPairOf, scene_of, Shown, Raced};
ghost use Rattle.ch_laws_calls.specs.Sound.{Sound};
ghost use Rattle.ch_laws_calls.specs.Users.{AllUsed};
ghost use Rattle.ch_laws_calls.specs.ScenesKnocks.{Unknocked};
ghost use Rattle.ch_laws_calls.specs.ScenesPairs.{IsPairFor};

/// In a journal that the grammar of many nodes reads, of whatever bytes: where hosts and world agree on ends, bytes, links and who asks,
/// sockets are used as they are called, and each dial is between two nodes, all that the laws of the race ask of a scene is so of each two
/// nodes. Both hosts are there under their addresses, each end between them is of one of them, a host's record stands as the end
/// does and is for their link, what is for another link isn't between them, and what is unread there are whole items, behind
/// which what is due may be written; and the first that a target reads is the other's request.
pub fn scenes_hold()
    ensures { (bytes : List ℕ) (log : List Entry) (world : World) → Sound (journal_of many_nodes bytes) log world → AllUsed (journal_of many_nodes bytes) log world → Peers (journal_of many_nodes bytes) log world → Unknocked log → Shown (journal_of many_nodes bytes) log world }
{}

/// Nothing that happens in a journal of many nodes is a stranger's knock.
pub fn nobody_knocks()
    ensures { (journal : List Line) → KeepsCalls journal Anything Anything (λ log world. Unknocked log) }
{}

/// In the new world of such a journal each two nodes are seen as a pair at the start: no socket, each link idle, and no node shut.
pub fn pairs_start()
    ensures seen { (bytes : List ℕ) (party : Side → Party) → IsPairOf (journal_of many_nodes bytes) party → view (scene_of party (world_new (journal_of many_nodes bytes))) ≡ start (λ x. false) }
    ensures raced { (bytes : List ℕ) → Raced (journal_of many_nodes bytes) [] (world_new (journal_of many_nodes bytes)) }
{}

/// Each two nodes of such a journal are a pair: their addresses differ, so one of the two is the greater.
pub fn nodes_are_pairs()
    ensures { (bytes : List ℕ) (a b : List ℕ) → is_declared (names_of (journal_of many_nodes bytes)) a ≡ true → is_declared (names_of (journal_of many_nodes bytes)) b ≡ true → bytes_eq a b ≡ false → IsPairFor (journal_of many_nodes bytes) a b }
{}
