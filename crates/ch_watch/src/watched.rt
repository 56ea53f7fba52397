//! Watches of other nodes, and of this one, on the processes of this node.

ghost use Rattle.std.specs.Prelude.{◌≡◌, ◌==◌, not, map, filter, IfOk};
ghost use Rattle.std.specs.List.{list_any};
ghost use Rattle.ch_watch.specs.Same.{same_node as same_node_of, same_ref as same_ref_of};

use crate::ending::Refs;
use crate::same::{same_node, same_ref};
use ch_base::{Address, OutOfMemory};
use ch_ident::Ref;
use std::alloc::Global;

/// A watch on a process of this node.
#[derive(Debug, Drop)]
pub struct Watched {
    /// The process that is watched, by its number.
    pub process: u32,
    pub watch: Ref,
}

/// Whether a watch is kept.
pub fn is_kept(watched: &[Watched], watch: &Ref) -> bool
    ensures { result ≡ list_any (λ watched. same_ref_of watched.watch watch.now) watched.now }
{
    watched
        .iter()
        .any(|watched| same_ref(&watched.watch, watch))
}

/// Drops a watch.
pub fn drop_watch(watched: &mut Vec<Watched>, watch: &Ref)
    ensures { watched.new.items ≡ filter (λ watched. not (same_ref_of watched.watch watch.now)) watched.old.items }
{
    watched.retain(|watched| !same_ref(&watched.watch, watch));
}

/// Drops the watches of a node.
pub fn drop_node(watched: &mut Vec<Watched>, peer: &Address)
    ensures { watched.new.items ≡ filter (λ watched. not (same_node_of watched.watch.node peer.now)) watched.old.items }
{
    watched.retain(|watched| !same_node(&watched.watch.node, peer));
}

/// Drops the watches on a process.
pub fn drop_process(watched: &mut Vec<Watched>, process: u32)
    ensures { watched.new.items ≡ filter (λ watched. not (watched.process == process)) watched.old.items }
{
    watched.retain(|watched| watched.process != process);
}

/// The watches on a process, in order.
pub fn watches_on(alloc: Global, watched: &[Watched], process: u32) -> Result<Refs, OutOfMemory>
    ensures { IfOk result (λ refs. refs ≡ map (λ watched. watched.watch) (filter (λ watched. watched.process == process) watched.now)) }
{
    let mut items = Vec::new(alloc);
    for watched in watched {
        if watched.process == process {
            items.push(watched.watch.copy()?)?;
        }
    }
    Ok(Refs { items })
}
