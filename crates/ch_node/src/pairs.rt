//! The pairs of a node, in order of first use.

ghost use Rattle.std.specs.Prelude.{◌≡◌, [], ◌∷◌, ◌++◌, map, filter_map, IfOk, IfSome, OnOk, MatchResult, Ok, Some, None, position, nat_le, length, slice_set, ◌<◌};
ghost use Rattle.ch_node.specs.Calls.{Halts};
ghost use Rattle.ch_node.specs.Keys.{IsKeyOf, SameKeys};
ghost use Rattle.ch_model.specs.NodePairs.{is_pair, pair_of, with_pair, conns_by as conns_by_of, closed_pairs, conn_by as conn_by_of, closed_by as closed_by_of, in_place, rising as rising_of, lost_pairs};

use crate::halt::Halt;
use crate::kept::Pair;
use crate::key::Key;
use ch_base::{Address, OutOfMemory};
use ch_static::Target;
use indexmap::IndexSet;
use std::alloc::{AllocError, Global};
use std::marker::Model;

/// The pairs of a node. Contracts see the list of them. A pair is looked up by key; the end of a
/// process and a failed link walk all.
#[derive(Drop)]
pub(crate) struct Pairs {
    /// The key of each row, in the rows' order.
    keys: IndexSet<Key>,
    rows: Vec<Pair>,
}

impl Model for Pairs {
    ghost use Rattle.std.specs.Prelude.{List};
    ghost use Rattle.ch_model.specs.NodeState.{Pair as PairValue};
    ghost use Rattle.ch_node.specs.Keys.{Keyed};

    ghost Value = { List PairValue };

    ghost view = { λ pairs. pairs.rows.items };

    ghost invariant = { λ pairs. Keyed pairs.keys.keys pairs.rows.items };
}

impl Pairs {
    /// No pair has said anything.
    pub(crate) fn new(alloc: Global) -> Pairs
        ensures { result ≡ [] }
    {
        Pairs {
            keys: IndexSet::new(alloc),
            rows: Vec::new(alloc),
        }
    }

    fn place(&self, key: &Key, by: u32, to: &Target) -> Option<usize>
        requires { IsKeyOf key.now by to.now }
        ensures place { result ≡ position (is_pair by to.now) self.now }
        ensures within { IfSome result (λ i. i < length self.now) }
    {
        self.keys.get_index_of(key)
    }

    /// The pair of a process and a target.
    #[tactic(auto, unfolding(ch_model::specs::NodePairs::pair_of))]
    pub(crate) fn pair(&self, by: u32, to: &Target) -> Result<Pair, OutOfMemory>
        ensures { IfOk result (λ pair. pair ≡ pair_of self.now by to.now) }
    {
        let key = Key::of(by, to)?;
        match self.place(&key, by, to) {
            None => Ok(Pair::new(by, to.copy()?)),
            Some(place) => self.rows[place].copy(),
        }
    }

    /// A new pair stands after the others.
    fn add(&mut self, key: Key, pair: Pair) -> Result<(), OutOfMemory>
        requires key { IsKeyOf key pair.by pair.to }
        requires fresh { None ≡ position (is_pair pair.by pair.to) self.old }
        ensures { OnOk result (self.new ≡ self.old ++ pair ∷ []) }
    {
        self.rows.push(pair)?;
        match self.keys.insert(key) {
            Ok(_) => Ok(()),
            Err(_) => {
                self.rows.pop();
                Err(OutOfMemory)
            }
        }
    }

    fn replace(&mut self, place: usize, pair: Pair)
        requires { Some place ≡ position (is_pair pair.by pair.to) self.old }
        ensures { self.new ≡ slice_set self.old place pair }
    {
        self.rows[place] = pair;
    }

    /// Puts a pair into its place, or after the others where it is new.
    pub(crate) fn set(&mut self, pair: Pair) -> Result<(), OutOfMemory>
        ensures { OnOk result (self.new ≡ with_pair pair self.old) }
    {
        let key = Key::of(pair.by, &pair.to)?;
        match self.place(&key, pair.by, &pair.to) {
            None => self.add(key, pair),
            Some(place) => {
                self.replace(place, pair);
                Ok(())
            }
        }
    }

    /// The open connections of a process, in order of opening. It walks all pairs.
    #[tactic(auto, unfolding(ch_model::specs::NodePairs::conns_by))]
    pub(crate) fn conns_by(&self, alloc: Global, by: u32) -> Result<Vec<u64>, OutOfMemory>
        ensures { IfOk result (λ conns. conns.items ≡ conns_by_of self.now by) }
    {
        let conns = open_conns(alloc, &self.rows, by)?;
        rising(alloc, &conns)
    }

    /// All connections of a process are closed. It walks all pairs.
    #[tactic(auto, unfolding(ch_model::specs::NodePairs::closed_pairs))]
    pub(crate) fn close_by(&mut self, by: u32)
        ensures { self.new ≡ closed_pairs self.old by }
    {
        close_all(&mut self.rows, by);
    }

    /// The link with a peer failed. It walks all pairs.
    pub(crate) fn lose(&mut self, peer: &Address) -> Result<(), Halt>
        ensures { MatchResult result (λ _. lost_pairs peer.now self.old ≡ Ok self.new) (λ e. Halts e (lost_pairs peer.now self.old)) }
    {
        lose_all(&mut self.rows, peer)
    }
}

/// The pairs after the link with a peer failed.
fn lose_all(pairs: &mut [Pair], peer: &Address) -> Result<(), Halt>
    ensures lost { MatchResult result (λ _. lost_pairs peer.now pairs.old ≡ Ok pairs.new) (λ e. Halts e (lost_pairs peer.now pairs.old)) }
    ensures keys { SameKeys pairs.old pairs.new }
{
    for pair in pairs.iter_mut() {
        pair.lose(peer)?;
    }
    Ok(())
}

/// The open connections of a process, in order of its pairs.
fn open_conns(alloc: Global, pairs: &[Pair], by: u32) -> Result<Vec<u64>, AllocError>
    ensures { IfOk result (λ conns. conns.items ≡ filter_map (conn_by_of by) pairs.now) }
{
    pairs
        .iter()
        .filter_map(|pair| pair.conn_by(by))
        .collect(alloc)
}

/// All connections of a process are closed.
fn close_all(pairs: &mut [Pair], by: u32)
    ensures { pairs.new ≡ map (closed_by_of by) pairs.old }
{
    for pair in pairs.iter_mut() {
        pair.close_by(by);
    }
}

/// The place of a number among rising ones, where it doesn't stand last.
fn place_of(sorted: &[u64], number: u64) -> Option<usize>
    ensures place { result ≡ position (λ other. nat_le number other) sorted.now }
    ensures within { IfSome result (λ i. i < length sorted.now) }
{
    sorted.iter().position(|other| number <= *other)
}

/// Puts a number into its place among rising ones.
fn place_in(sorted: &mut Vec<u64>, number: u64) -> Result<(), OutOfMemory>
    ensures { OnOk result (sorted.new.items ≡ in_place number sorted.old.items) }
{
    let place = place_of(sorted.as_slice(), number);
    match place {
        None => sorted.push(number)?,
        Some(place) => sorted.insert(place, number)?,
    }
    Ok(())
}

/// Numbers in rising order.
fn rising(alloc: Global, numbers: &[u64]) -> Result<Vec<u64>, OutOfMemory>
    ensures { IfOk result (λ sorted. sorted.items ≡ rising_of numbers.now) }
{
    let mut sorted = Vec::new(alloc);
    let mut left = numbers.len();
    'numbers: while left > 0 {
        left -= 1;
        place_in(&mut sorted, numbers[left])?;
    }
    Ok(sorted)
}
