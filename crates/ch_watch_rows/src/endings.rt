//! In which order numbers are lost, and names and watches go with a process.

use crate::fixtures::{At, Target, identifier, node, reference};
use ch_ident::{Identifier, Name};
use ch_watch::{Kind, Watches};
use std::alloc::Global;
use std::test::Fail;

fn watch(
    alloc: Global,
    watches: &mut Watches,
    owner: u32,
    kind: Kind,
    target: Target,
) -> Result<(), Fail> {
    let target = identifier(alloc, target)?;
    watches.watch(owner, kind, &target)?;
    Ok(())
}

/// Numbers 0, 2 and 3 are of the far node.
fn four_open(alloc: Global) -> Result<Watches, Fail> {
    let mut watches = Watches::new(alloc);
    watch(
        alloc,
        &mut watches,
        0,
        Kind::Monitor,
        Target::Process(At::Far),
    )?;
    watch(alloc, &mut watches, 0, Kind::Link, Target::Port(At::Near))?;
    watch(alloc, &mut watches, 1, Kind::Spawn, Target::Node(At::Far))?;
    watch(alloc, &mut watches, 1, Kind::Ask, Target::Port(At::Far))?;
    Ok(watches)
}

#[test]
fn a_break_closes_what_the_peer_owes(rt: HostRuntime) -> Result<(), Fail> {
    let mut watches = four_open(rt.alloc())?;
    let peer = node(rt.alloc(), At::Far)?;
    let lost = watches.lost(&peer)?;
    assert_eq!(rt; lost.len(), 3);
    assert_eq!(rt; lost[0].number, 0);
    assert_eq!(rt; lost[1].number, 2);
    assert_eq!(rt; lost[2].number, 3);
    Ok(())
}

#[test]
fn a_closed_number_is_what_was_opened(rt: HostRuntime) -> Result<(), Fail> {
    let mut watches = four_open(rt.alloc())?;
    let closed = watches.told(2)?;
    assert_eq!(rt; closed.number, 2);
    assert_eq!(rt; closed.owner, 1);
    assert_eq!(rt; closed.kind, Kind::Spawn);
    assert!(rt; matches!(closed.target, Identifier::Node(_)));
    Ok(())
}

fn arrive(
    alloc: Global,
    watches: &mut Watches,
    process: u32,
    at: At,
    number: u32,
) -> Result<(), Fail> {
    let watch = reference(alloc, at, number)?;
    watches.arrive(process, &watch)?;
    Ok(())
}

fn register(alloc: Global, watches: &mut Watches, name: &[u8], process: u32) -> Result<(), Fail> {
    let name = Name::new(alloc, name)?;
    watches.register(&name, process)?;
    Ok(())
}

#[test]
fn an_end_hands_out_names_in_order(rt: HostRuntime) -> Result<(), Fail> {
    let mut watches = Watches::new(rt.alloc());
    register(rt.alloc(), &mut watches, b"zeta", 0)?;
    register(rt.alloc(), &mut watches, b"beta", 1)?;
    register(rt.alloc(), &mut watches, b"alpha", 0)?;
    let names = watches.ended(0)?.names.items;
    assert_eq!(rt; names.len(), 2);
    assert_eq!(rt; names[0].bytes.as_slice(), b"zeta".as_slice());
    assert_eq!(rt; names[1].bytes.as_slice(), b"alpha".as_slice());
    Ok(())
}

#[test]
fn an_end_hands_out_watches_in_order(rt: HostRuntime) -> Result<(), Fail> {
    let mut watches = Watches::new(rt.alloc());
    arrive(rt.alloc(), &mut watches, 0, At::Far, 9)?;
    arrive(rt.alloc(), &mut watches, 1, At::Far, 4)?;
    arrive(rt.alloc(), &mut watches, 0, At::Near, 8)?;
    let told = watches.ended(0)?.watches.items;
    assert_eq!(rt; told.len(), 2);
    assert_eq!(rt; told[0].number, 9);
    assert_eq!(rt; told[1].number, 8);
    Ok(())
}
