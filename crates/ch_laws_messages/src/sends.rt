//! The laws of sends to other nodes: how a line is answered by which a process sends to one of another node.
//!
//! Such a process is refused where its message fits in no frame; where its node isn't up with the other and 4,096 payloads wait; and
//! where its pair would open a connection beyond the 65,535th. The node decides by its host: whether the link is up, how many counted
//! payloads wait, and how many ids were given. Here it is shown that the log tells the same: ends that came up; lines that were done,
//! each of which said one message; and pairs, each of which began with one.
//!
//! No code: laws as clauses of empty functions, over the model below and over what is said of two nodes there (ch_laws_peers).

ghost use Rattle.std.specs.Prelude.{◌≡◌, ℕ, false, List, [], length, Ok, IsTrue};
ghost use Rattle.std.specs.List.{filter_map};
ghost use Rattle.std.specs.Str.{bytes_eq};
ghost use Rattle.ch_model.specs.declared.entry.Entry.{Entry};
ghost use Rattle.ch_model.specs.declared.line.Line.{Line};
ghost use Rattle.ch_model.specs.AnswersCounts.{waiting};
ghost use Rattle.ch_model.specs.Epochs.{FollowsEpochs};
ghost use Rattle.ch_model.specs.HasAnswers.{has_own_first, stands_in_place};
ghost use Rattle.ch_model.specs.HostWrites.{is_up, counted_in};
ghost use Rattle.ch_model.specs.Journal.{journal_of};
ghost use Rattle.ch_model.specs.LinesBuilt.{many_nodes};
ghost use Rattle.ch_model.specs.Links.{is_up_with};
ghost use Rattle.ch_model.specs.Logs.{each, each_between};
ghost use Rattle.ch_model.specs.World.{names_of, world_new, log_of};
ghost use Rattle.ch_model.specs.WorldState.{World};
ghost use Rattle.ch_race.specs.Pair.{Side, other};
ghost use Rattle.ch_laws_race.specs.Scene.{Party, link_of};
ghost use Rattle.ch_laws_calls.specs.Scenes.{IsPairOf, scene_of};
ghost use Rattle.ch_laws_log.specs.Lines.{AllLines};
ghost use Rattle.ch_laws_many.specs.ManyLines.{is_of_many};
ghost use Rattle.ch_laws_calls.specs.Turns.{KeepsTurns};
ghost use Rattle.ch_laws_plain_logs.specs.Plain.{IsPlain, said_by};
ghost use Rattle.ch_laws_peers.specs.Says.{Says};
ghost use Rattle.ch_laws_peers.specs.Standing.{IsOfNodes, Standing};
ghost use Rattle.ch_laws_messages.specs.SendsSends.{is_answered_send, send_done, AreWeighed, AreSmall, SaysSmall, AllGive, FrontsStand};
ghost use Rattle.ch_laws_messages.specs.SendsTurns.{Told, EndsAskNone, ItemsAskNone};

/// Each line by which a process that lives sends to one of another node is answered as the log before it shows, where after each
/// front of the journal hosts and nodes stand as they do (ch_laws_peers), all that was said is carried, and links have given an id for
/// each pair. So it is of any journal of many nodes whose processes' counters fit their words, in whose log messages are numbered as
/// they come; and of each journal that the grammar of many nodes reads.
pub fn sends_are_answered()
    ensures nodes { (journal : List Line) → IsOfNodes journal → AreSmall journal → FrontsStand journal → (log : List Entry) → log_of journal ≡ Ok log → FollowsEpochs log → IsTrue (each (is_answered_send journal) log) }
    ensures many { (bytes : List ℕ) → FrontsStand (journal_of many_nodes bytes) → (log : List Entry) → log_of (journal_of many_nodes bytes) ≡ Ok log → IsTrue (each (is_answered_send (journal_of many_nodes bytes)) log) }
{}

/// What the log counts, the host has. A node's link with another is up where the log says that the node is up with it. As many lines
/// are done by which a process sends from one node to another as messages are said between them; so many wait by the log where the
/// node isn't up, and so many counted payloads wait at the host.
pub fn hosts_have_what_logs_count()
    ensures up { (journal : List Line) → IsOfNodes journal → (log : List Entry) (world : World) → Standing journal log world → (party : Side → Party) → IsPairOf journal party → (x : Side) → is_up (link_of (scene_of party world) x).state ≡ is_up_with log (party x).name (party (other x)).name }
    ensures done { (journal : List Line) (x y : List ℕ) (log : List Entry) → AllLines (is_of_many (names_of journal)) journal → IsTrue (each_between (has_own_first journal) log) → IsTrue (each (stands_in_place journal) log) → length (filter_map (send_done journal x y) log) ≡ length (filter_map (said_by x y) log) }
    ensures waiting { (journal : List Line) (x y : List ℕ) (log : List Entry) → AllLines (is_of_many (names_of journal)) journal → bytes_eq x y ≡ false → IsPlain log → IsTrue (each_between (has_own_first journal) log) → IsTrue (each (stands_in_place journal) log) → is_up_with log x y ≡ false
        → waiting journal log x y ≡ length (filter_map (said_by x y) log) }
    ensures waits { (journal : List Line) (log : List Entry) (world : World) (party : Side → Party) (x : Side) → Says journal log world party x → AreWeighed (link_of (scene_of party world) x).waits → is_up (link_of (scene_of party world) x).state ≡ false
        → counted_in (link_of (scene_of party world) x) ≡ length (filter_map (said_by (party x).name (party (other x)).name) log) }
{}

/// Each turn of a journal of many nodes keeps it that what waits is weighed as it was put, and that a link has given one id for each
/// pair of processes that has said something over it; where hosts and nodes stand before and after it as they do, all that was said is
/// carried, messages are numbered as they come, and what nodes make of what their hosts post asks nothing of the hosts. So it is where
/// nothing has happened.
pub fn ids_are_given_to_pairs()
    ensures kept { (journal : List Line) → IsOfNodes journal → EndsAskNone (Told journal) → ItemsAskNone (Told journal) → KeepsTurns journal (Told journal) (Told journal) (AllGive journal) }
    ensures fresh { (journal : List Line) → AllGive journal [] (world_new journal) }
{}

/// The counters of the processes that a journal names are small where the grammar of many nodes reads it, and where they are, each
/// message of a log in which what lines do stands in its place is said by and to processes of small counters.
pub fn counters_are_small()
    ensures lines { (bytes : List ℕ) → AreSmall (journal_of many_nodes bytes) }
    ensures said { (journal : List Line) (log : List Entry) → AllLines (is_of_many (names_of journal)) journal → AreSmall journal → IsTrue (each (stands_in_place journal) log) → SaysSmall log }
{}
