//! The passage of messages from one node to another, as a machine, and the laws of all its runs.
//!
//! No code: definitions, and laws as clauses of empty functions. Nothing stands below. Above stand the laws of a whole
//! world, whose steps are moves of this machine for each ordered pair of its nodes.
#![tactic(auto)]

ghost use Rattle.std.specs.Prelude.{◌≡◌, ℕ, Bool, true, List, [], ◌∷◌, Some, None, false};
ghost use Rattle.ch_delivery.specs.Passage.{Passage, start, Said, Again, Got, Rose, Broke, Came, Fell, Stood};
ghost use Rattle.ch_delivery.specs.Moves.{Move, run, run_by, AllAllowed, AllAllowedBy};
ghost use Rattle.ch_delivery.specs.Log.{Lawful, AllSaid};
ghost use Rattle.ch_delivery.specs.Whole.{PresentGot, AllGot, is_owed};
ghost use Rattle.ch_delivery.specs.Stray.{NoneStray};
ghost use Rattle.ch_delivery.specs.Invariant.{IsReached, NamesGoOn};
ghost use Rattle.ch_delivery.specs.Rows.{no_names, one_name, seven, nobody, lost_and_reconnected, closed_early, to_a_name, too_late};
ghost use Rattle.ch_delivery.specs.Wrong.{gets_twice, one_message, heals, a_gap, forgets, one_waits, repeats_epochs, said_again, speaks_on, past_a_break, outlives, read_late, breaks_names, a_break};

/// Messages from one process to a target come in order, each at most once, whatever is lost, late or replaced: a message
/// is got only if it was said before its epoch broke, after those of its epoch that were said before it and before any of
/// a later epoch, and by the process that stands for the target then. So what was said behind a loss isn't got until the
/// sender has reconnected.
pub fn in_order_and_once()
    ensures lawful { (p : Passage) → IsReached p → Lawful p.named p.log }
    ensures was_said { (p : Passage) → IsReached p → AllSaid p.log }
{}

/// All that was said is got, where nothing troubles: once both nodes are up on one socket with nothing unread there, all
/// messages of an epoch were got whose target was there from the first of them on, if the sending node's link didn't break
/// since and the node wasn't shut, also if the sender has reconnected or is over meanwhile. And whatever happened before,
/// so were all of a pair's present epoch, if its connection leads to its target.
pub fn all_that_was_said()
    ensures owed { (named : ℕ → Bool) (moves : List Move) → AllAllowed moves (start named) → (c e : ℕ) → is_owed c e moves (start named) false ≡ true
        → AllGot c e (run moves (start named)) }
    ensures present { (p : Passage) → IsReached p → PresentGot p }
{}

/// A node never reads a message or a close on a connection that it doesn't know, nor a connection that it knows already.
pub fn nothing_stray()
    ensures { (p : Passage) → IsReached p → NoneStray p }
{}

/// A pair whose target is a name never has to reconnect: at a break it goes on in its next epoch.
pub fn names_go_on()
    ensures { (p : Passage) → IsReached p → NamesGoOn p }
{}

/// A message is lost with its socket, and so is one that is said behind it; the pair reconnects, and goes on.
pub fn a_loss()
    ensures allowed { AllAllowed lost_and_reconnected (start no_names) }
    ensures log { (run lost_and_reconnected (start no_names)).log
        ≡ Got 0 1 0 (Some 7) ∷ Came 2 ∷ Rose 2 ∷ Said 0 1 0 ∷ Again 0 1 ∷ Said 0 0 2 ∷ Broke ∷ Fell ∷ Said 0 0 1 ∷ Got 0 0 0 (Some 7) ∷ Rose 1 ∷ Came 1 ∷ Said 0 0 0 ∷ Stood seven ∷ [] }
    ensures owed { is_owed 0 1 lost_and_reconnected (start no_names) false ≡ true }
{}

/// Epochs that were closed before anything was read are got whole.
pub fn an_early_close()
    ensures allowed { AllAllowed closed_early (start no_names) }
    ensures log { (run closed_early (start no_names)).log
        ≡ Got 0 1 0 (Some 7) ∷ Got 0 0 1 (Some 7) ∷ Got 0 0 0 (Some 7) ∷ Came 1 ∷ Rose 1 ∷ Said 0 1 0 ∷ Again 0 1 ∷ Said 0 0 1 ∷ Said 0 0 0 ∷ Stood seven ∷ [] }
    ensures first_owed { is_owed 0 0 closed_early (start no_names) false ≡ true }
    ensures second_owed { is_owed 0 1 closed_early (start no_names) false ≡ true }
{}

/// A message to a name that stands for nobody is got by nobody, and the next after a break begins the next epoch.
pub fn a_name()
    ensures allowed { AllAllowed to_a_name (start one_name) }
    ensures log { (run to_a_name (start one_name)).log ≡ Got 1 1 0 (Some 7) ∷ Came 2 ∷ Rose 2 ∷ Said 1 1 0 ∷ Stood seven ∷ Broke ∷ Fell ∷ Got 1 0 0 None ∷ Came 1 ∷ Rose 1 ∷ Said 1 0 0 ∷ [] }
    ensures owed { is_owed 1 1 to_a_name (start one_name) false ≡ true }
{}

/// A message to a process that isn't made when its connection is opened is dropped, and so is one that is read after the
/// process is over.
pub fn too_late_for_it()
    ensures allowed { AllAllowed too_late (start no_names) }
    ensures log { (run too_late (start no_names)).log ≡ Stood nobody ∷ Said 0 1 0 ∷ Again 0 1 ∷ Stood seven ∷ Came 1 ∷ Rose 1 ∷ Said 0 0 0 ∷ [] }
{}

/// Were a message got twice, the second would come where the next is due. `in_order_and_once` forbids it.
pub fn getting_twice()
    ensures allowed { AllAllowedBy gets_twice one_message (start no_names) }
    ensures forbidden { Lawful no_names (run_by gets_twice one_message (start no_names)).log → ⊥ }
{}

/// Did more come from a socket that was cut, the third message could be got without the second.
pub fn healing()
    ensures allowed { AllAllowedBy heals a_gap (start no_names) }
    ensures forbidden { Lawful no_names (run_by heals a_gap (start no_names)).log → ⊥ }
{}

/// Were what waits forgotten when a link comes up, a message would be owed and never come. `all_that_was_said` forbids it.
pub fn forgetting()
    ensures allowed { AllAllowedBy forgets one_waits (start no_names) }
    ensures owed { is_owed 0 0 one_waits (start no_names) false ≡ true }
    ensures forbidden { AllGot 0 0 (run_by forgets one_waits (start no_names)) → ⊥ }
{}

/// Did a reconnect go on in the same epoch, two messages would have one number.
pub fn repeating_epochs()
    ensures allowed { AllAllowedBy repeats_epochs said_again (start no_names) }
    ensures forbidden { Lawful no_names (run_by repeats_epochs said_again (start no_names)).log → ⊥ }
{}

/// Did a broken pair speak on, a message could be got past a loss that nobody was told.
pub fn speaking_on()
    ensures allowed { AllAllowedBy speaks_on past_a_break (start no_names) }
    ensures forbidden { Lawful no_names (run_by speaks_on past_a_break (start no_names)).log → ⊥ }
{}

/// Did a connection outlive the process that it leads to, nobody would get what a process should.
pub fn outliving()
    ensures allowed { AllAllowedBy outlives read_late (start no_names) }
    ensures forbidden { Lawful no_names (run_by outlives read_late (start no_names)).log → ⊥ }
{}

/// Were a pair with a name broken as any other, nothing could ever reconnect it. `names_go_on` forbids it.
pub fn breaking_names()
    ensures allowed { AllAllowedBy breaks_names a_break (start one_name) }
    ensures forbidden { NamesGoOn (run_by breaks_names a_break (start one_name)) → ⊥ }
{}
