//! The race of two nodes for one socket, as a machine, and the laws of all its runs.
//!
//! No code: definitions, and laws as clauses of empty functions. A link answers all that it hears by the table of
//! `ch_link`, below. Above stand the laws of a whole world, whose steps are moves of this machine.
#![tactic(auto)]

ghost use Rattle.std.specs.Prelude.{◌≡◌, ◌<◌, ◌≤◌, ◌⊎◌, ℕ, ◌+◌, List, [], ◌∷◌, ◌++◌, length, true, false};
ghost use Rattle.ch_race.specs.Pair.{Side, Lesser, Greater, Pair, OAsking, two_nodes};
ghost use Rattle.ch_race.specs.Moves.{Move, Timer, Allowed, after, run, run_by, AllAllowed, AllAllowedBy, AllStill, AtRest};
ghost use Rattle.ch_race.specs.Naming.{Naming, OneLive, Bundle, ComesUpFree};
ghost use Rattle.ch_race.specs.Words.{Worded};
ghost use Rattle.ch_race.specs.Probes.{Probing};
ghost use Rattle.ch_race.specs.Quiet.{Quieted, NoBreak, NoFailure, Licensed};
ghost use Rattle.ch_race.specs.Rest.{WhenStill};
ghost use Rattle.ch_race.specs.Measure.{total, whole};
ghost use Rattle.ch_race.specs.Settle.{Visits, AllVisits, Settles, AllSettle, SettlesBy, AllWithin, timers};
ghost use Rattle.ch_race.specs.Payloads.{payloads, unread, all_said, all_got, StaysQuiet};
ghost use Rattle.ch_race.specs.Invariant.{IsReached, IsReachedWithin};
ghost use Rattle.ch_race.specs.Rows.{lesser_reads_first, greater_crosses, greater_reads_first, awaits_in_vain, both_read, both_answered, stale_read, lesser_asked, both_accept, both_cross, never_probes, never_leaves};
ghost use Rattle.ch_link.specs.declared.LinkState.TheVariants.{AwaitOther, Up};

/// Ends and links name the same sockets, whatever is lost or late. So at most one socket is live, and beside a live
/// socket no node is up on another, nor dials one. A target comes up only while it is up on nothing, and while the
/// opener, unless it has left, dials this very socket.
pub fn one_live_socket()
    ensures named { (p : Pair) → IsReached p → Naming p }
    ensures one { (p : Pair) → IsReached p → OneLive p }
    ensures bundle { (p : Pair) → IsReached p → Bundle p }
    ensures comes_up { (p : Pair) → IsReached p → (m : Move) → Allowed m p → ComesUpFree p (after m p) }
{}

/// What stands unread on a socket is told by the states of its two ends; and of each probed link the probe, or the
/// acknowledgement, is under way, unless an end has ended or something was lost.
pub fn unread_items()
    ensures words { (p : Pair) → IsReached p → Worded p }
    ensures probes { (p : Pair) → IsReached p → Probing p }
{}

/// While nothing was lost, late or shut since all was settled, no move breaks a link: nothing that would is to be read,
/// no timer runs out in settling, and no link becomes idle. Whatever was lost, a node hears that the other's endpoint is
/// closed, or isn't there, only from one that is shut.
pub fn nothing_breaks()
    ensures quiet { (p : Pair) → IsReached p → Quieted p }
    ensures no_break { (p : Pair) → IsReached p → NoBreak p }
    ensures no_failure { (p : Pair) → IsReached p → (m : Move) → Allowed m p → p.quiet ≡ true → (after m p).quiet ≡ true → NoFailure p (after m p) }
    ensures licensed { (p : Pair) → IsReached p → Licensed p }
{}

/// Where nothing is to be done at the sockets, no link dials, none is probed, and a node that is up is up with the
/// other on the same socket.
pub fn at_rest()
    ensures { (p : Pair) → IsReached p → WhenStill p }
{}

/// Settling ends. The weight is what is to be done at the sockets and the timers that will run out. Each visit and each
/// timer lowers it, so moves of settling in any order are no more than it. Where not all is still there is a visit to do.
/// Where all is still one round of timers, of nodes that await the other, leads to rest. So from each pair that is
/// reached, visits in any order and then one round of timers lead to rest, as a run of at most so many moves as the
/// weight: whatever visits were done, more complete them, and those that leave all still are complete.
pub fn settling_ends()
    ensures lowers { (n : ℕ) (p : Pair) → IsReachedWithin n p → (m : Move) → Allowed m p → Settles n m p → whole n (after m p) < whole n p }
    ensures any_order { (n : ℕ) (p : Pair) → IsReachedWithin n p → (moves : List Move) → AllAllowed moves p → AllSettle n moves p
        → length moves + whole n (run moves p) ≤ whole n p }
    ensures goes_on { (n : ℕ) (p : Pair) → IsReachedWithin n p → AllStill p ⊎ ((m : Move) × Allowed m p × Visits n m p) }
    ensures timers { (p : Pair) → IsReached p → AllStill p → AllAllowed (timers p) p × AtRest (run (timers p) p) }
    ensures completed { (n : ℕ) (p : Pair) → IsReachedWithin n p → (visits : List Move) → AllAllowed visits p → AllVisits n visits p → AllStill (run visits p)
        → SettlesBy n visits p }
    ensures settles { (n : ℕ) (p : Pair) → IsReachedWithin n p → (visits : List Move) → AllAllowed visits p → AllVisits n visits p
        → (more : List Move) × SettlesBy n (visits ++ more) p }
{}

/// What is said in a quiet pair is read. Over moves that keep it quiet no payload is dropped: those that were unread
/// and those that are written are those that are read and those that are still unread. Where all is still none is unread.
pub fn payloads_are_read()
    ensures none_dropped { (n : ℕ) (p : Pair) → IsReachedWithin n p → (moves : List Move) → AllAllowed moves p → AllWithin n moves → StaysQuiet moves p
        → all_said moves p + unread n p ≡ all_got moves p + unread n (run moves p) }
    ensures none_unread { (p : Pair) → IsReached p → AllStill p → (i : ℕ) → payloads (p.sock i) ≡ 0 }
    ensures all_read { (n : ℕ) (p : Pair) → IsReachedWithin n p → (moves : List Move) → AllAllowed moves p → AllWithin n moves → StaysQuiet moves p → AllStill (run moves p)
        → all_said moves p + unread n p ≡ all_got moves p }
{}

/// Two requests that cross, computed: the greater node's socket comes up, whoever reads first, and nothing is lost.
#[tactic(auto, unfolding(ch_link::specs::Table::step_of))]
pub fn crossed_requests()
    ensures lesser_first { AllAllowed lesser_reads_first two_nodes }
    ensures lesser_first_up { ((run lesser_reads_first two_nodes).link Lesser ≡ Up 1 false) × ((run lesser_reads_first two_nodes).link Greater ≡ Up 1 false) }
    ensures lesser_first_quiet { (run lesser_reads_first two_nodes).quiet ≡ true }
    ensures greater_first { AllAllowed greater_reads_first two_nodes }
    ensures greater_first_up { ((run greater_reads_first two_nodes).link Lesser ≡ Up 1 false) × ((run greater_reads_first two_nodes).link Greater ≡ Up 1 false) }
    ensures greater_first_quiet { (run greater_reads_first two_nodes).quiet ≡ true }
    ensures awaits { (run greater_crosses two_nodes).link Lesser ≡ AwaitOther }
{}

/// A node awaits where no socket is left, computed: no visit is to be done, its timer is the one move left, and the
/// weight counts it.
#[tactic(auto, unfolding(ch_link::specs::Table::step_of))]
pub fn awaiting_in_vain()
    ensures allowed { AllAllowed awaits_in_vain two_nodes }
    ensures no_socket { total 2 (run awaits_in_vain two_nodes).sock ≡ 0 }
    ensures one_timer { timers (run awaits_in_vain two_nodes) ≡ Timer Lesser ∷ [] }
    ensures weight { whole 2 (run awaits_in_vain two_nodes) ≡ 1 }
{}

/// Were both requests accepted, each node would be up on a socket that the other has left, and a quiet pair would
/// break. `nothing_breaks` forbids it.
#[tactic(auto, unfolding(ch_link::specs::Table::step_of))]
pub fn both_accepting()
    ensures allowed { AllAllowedBy both_accept both_read two_nodes }
    ensures lesser { (run_by both_accept both_read two_nodes).link Lesser ≡ Up 1 false }
    ensures greater { (run_by both_accept both_read two_nodes).link Greater ≡ Up 0 false }
    ensures forbidden { NoBreak (run_by both_accept both_read two_nodes) → ⊥ }
{}

/// Were both crossed, each node would await the other for ever. `nothing_breaks` says that in a quiet pair only the
/// lesser node awaits.
#[tactic(auto, unfolding(ch_link::specs::Table::step_of))]
pub fn both_crossing()
    ensures allowed { AllAllowedBy both_cross both_answered two_nodes }
    ensures lesser { (run_by both_cross both_answered two_nodes).link Lesser ≡ AwaitOther }
    ensures greater { (run_by both_cross both_answered two_nodes).link Greater ≡ AwaitOther }
    ensures forbidden { Quieted (run_by both_cross both_answered two_nodes) → ⊥ }
{}

/// Were no probe written, a link would stay probed with nothing under way on its socket. `unread_items` accounts for
/// each probe.
#[tactic(auto, unfolding(ch_link::specs::Table::step_of))]
pub fn no_probe()
    ensures allowed { AllAllowedBy never_probes stale_read two_nodes }
    ensures probed { (run_by never_probes stale_read two_nodes).link Greater ≡ Up 1 true }
    ensures nothing_o { ((run_by never_probes stale_read two_nodes).sock 1).in_o ≡ [] }
    ensures nothing_t { ((run_by never_probes stale_read two_nodes).sock 1).in_t ≡ [] }
    ensures forbidden { Probing (run_by never_probes stale_read two_nodes) → ⊥ }
{}

/// Were the own dial not left, its end would ask on while its link names another socket. `one_live_socket` says that
/// ends and links name the same.
#[tactic(auto, unfolding(ch_link::specs::Table::step_of))]
pub fn dial_not_left()
    ensures allowed { AllAllowedBy never_leaves lesser_asked two_nodes }
    ensures asks { ((run_by never_leaves lesser_asked two_nodes).sock 0).o ≡ OAsking }
    ensures link { (run_by never_leaves lesser_asked two_nodes).link Lesser ≡ Up 1 false }
    ensures forbidden { Naming (run_by never_leaves lesser_asked two_nodes) → ⊥ }
{}
