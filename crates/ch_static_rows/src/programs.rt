//! An actor and a program, through the bounds of their traits.

use crate::ender::Enders;
use ch_base::OutOfMemory;
use ch_ident::Name;
use ch_static::{Actor, Command, Program, Reply, Turn};
use std::test::Fail;

/// The first command of an actor, which may rest once.
fn first_command<P: Program>(program: &P) -> Result<Option<Command>, OutOfMemory>
where
    P::Actor: Drop,
{
    let mut actor = program.start()?;
    match actor.turn(&Reply::First)? {
        Turn::Do(command) => Ok(Some(command)),
        Turn::Rest => Ok(None),
    }
}

#[test]
fn a_program_starts_an_actor(rt: HostRuntime) -> Result<(), Fail> {
    let first = first_command(&Enders)?;
    assert!(rt; matches!(first, Some(Command::End)));
    Ok(())
}

#[test]
fn a_program_lacks_a_label(rt: HostRuntime) -> Result<(), Fail> {
    let label = Name::new(rt.alloc(), b"v")?;
    let made = Enders.make(&label, b"")?;
    assert!(rt; made.is_none());
    Ok(())
}

/// It rests at first, and acts once it is woken.
#[test]
fn a_program_makes_an_actor_of_its_label(rt: HostRuntime) -> Result<(), Fail> {
    let label = Name::new(rt.alloc(), b"w")?;
    match Enders.make(&label, b"")? {
        None => panic!(rt; "the program has the label"),
        Some(mut worker) => {
            let first = worker.turn(&Reply::First)?;
            assert!(rt; matches!(first, Turn::Rest));
            let woken = worker.turn(&Reply::Woken)?;
            assert!(rt; matches!(woken, Turn::Do(Command::End)));
        }
    }
    Ok(())
}
