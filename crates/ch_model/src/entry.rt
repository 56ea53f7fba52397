//! The entries of a log.

ghost use Rattle.std.specs.Prelude.{◌≡◌, IfOk};
ghost use Rattle.ch_model.specs.declared.entry.Entry.TheVariants as entries;

use crate::name::{End, ProcName, RefName, SockName, TargetName};
use ch_base::{OutOfMemory, Text, Why};
use ch_ident::{Name, Reason};
use ch_watch::Kind;

/// What was answered to an event line.
#[derive(Clone, Copy, Debug, PartialEq, Eq)]
pub enum Verdict {
    /// It was done.
    Ok,
    /// The acting process, or the process or port of the same node that is sent to, wasn't made.
    Unknown,
    /// The acting process acts no more, or the node is shut.
    Dead,
    /// A process that isn't doomed can't fall.
    Hale,
    /// The name stands already.
    Taken,
    /// The name doesn't stand.
    NoName,
    /// No watch of the process is open under the reference.
    NoRef,
    /// No such message waits.
    Empty,
    /// The payload would have more than 65,536 bytes.
    Long,
    /// The link isn't up, and 4,096 counted payloads wait for it.
    Full,
    /// 65,535 connections were opened on the socket that is up or awaited, besides the one from node to node.
    Spent,
    /// `none`: there was nothing to happen.
    Nothing,
}

/// One thing that happened. A pair is a sending process and the target it sends to; its messages are
/// numbered by an epoch and an index in it, both from 0.
#[derive(Debug, Drop)]
pub enum Entry {
    /// The answer to the event line with this number; what follows up to the next is its doing.
    Line {
        number: u32,
        answer: Verdict,
    },
    /// A process was made; by a spawn, with the reference and the label, or by a line, with neither.
    Made {
        process: ProcName,
        spawn: Option<RefName>,
        label: Option<Name>,
    },
    /// A message was said.
    Said {
        by: ProcName,
        to: TargetName,
        epoch: u64,
        index: u64,
        mark: Name,
        body: Text,
    },
    /// A pair was reconnected, and this is its new epoch.
    Again {
        by: ProcName,
        to: TargetName,
        epoch: u64,
    },
    /// The message of this pair, epoch and index was got; by nobody, where its name stands for none.
    Got {
        by: ProcName,
        to: TargetName,
        epoch: u64,
        index: u64,
        receiver: Option<ProcName>,
    },
    /// A process took a message, from its mailbox or from a port.
    Took {
        by: ProcName,
        port: Option<u32>,
        mark: Name,
        body: Text,
    },
    /// A process opened a port.
    Port {
        process: ProcName,
        port: u32,
    },
    /// A process is over, for this reason.
    Over {
        process: ProcName,
        reason: Reason,
    },
    /// A process is doomed, with this text.
    Doom {
        process: ProcName,
        text: Text,
    },
    /// A process monitors, or is linked to, another, under this reference.
    Watch {
        watch: RefName,
        by: ProcName,
        target: ProcName,
        kind: Kind,
    },
    /// A monitor or a link was taken back.
    Unwatch {
        watch: RefName,
    },
    /// The target's node finds no such process, or finds it over.
    Absent {
        watch: RefName,
    },
    /// A watch was told the end of its target, and is open no more.
    Told {
        watch: RefName,
        reason: Reason,
    },
    /// A spawn, or for which process a name stands, was asked of another node.
    Asked {
        question: RefName,
        by: ProcName,
        at: Text,
    },
    /// The process that a spawn made is known to the asking node.
    Spawned {
        question: RefName,
        process: ProcName,
    },
    /// For which process a name stands, if for any, is known to the asking node.
    Isat {
        question: RefName,
        found: Option<ProcName>,
    },
    /// A name of a node stands for this process, or fell away.
    Named {
        node: Text,
        name: Name,
        process: Option<ProcName>,
    },
    /// A node was shut.
    Shut {
        node: Text,
    },
    /// A node dials another; both ends are pending.
    Dial {
        sock: SockName,
    },
    /// A stranger has opened a socket to a node's host.
    Knocked {
        sock: SockName,
    },
    /// A stranger wrote these bytes.
    Poked {
        sock: SockName,
        bytes: Text,
    },
    /// A stranger has ended its end.
    Quitted {
        sock: SockName,
    },
    /// The opener's end is open.
    Joined {
        sock: SockName,
    },
    /// The target's end is open.
    Came {
        sock: SockName,
    },
    /// The dial has failed.
    Refused {
        sock: SockName,
    },
    /// What was unread towards an end is gone, and nothing more arrives there.
    Cut {
        sock: SockName,
        end: End,
    },
    /// An end has lost its socket.
    Lost {
        sock: SockName,
        end: End,
    },
    /// The timer of the first node for the second was due.
    Timed {
        node: Text,
        peer: Text,
    },
    /// So many bytes were handed to an end; 0 is the end of its input.
    Fed {
        sock: SockName,
        end: End,
        count: u64,
    },
    /// An end wrote the bytes of one item.
    Wrote {
        sock: SockName,
        end: End,
        bytes: Text,
    },
    /// A link came up on the socket, at this end.
    Up {
        sock: SockName,
        end: End,
    },
    /// An end that was up is closed.
    Down {
        sock: SockName,
        end: End,
    },
    /// An end that wasn't up is closed.
    Left {
        sock: SockName,
        end: End,
    },
    /// The first node's link with the second has failed.
    Broke {
        node: Text,
        peer: Text,
        why: Why,
    },
    /// Nothing is left to happen without loss.
    Settled,
}

impl Entry {
    /// An equal entry.
    pub fn copy(&self) -> Result<Entry, OutOfMemory>
        ensures { IfOk result (λ copied. copied ≡ self.now) }
    {
        match self {
            Entry::Line { number, answer } => Ok(Entry::Line {
                number: *number,
                answer: *answer,
            }),
            Entry::Made {
                process,
                spawn,
                label,
            } => made_copied(process, spawn, label),
            Entry::Said {
                by,
                to,
                epoch,
                index,
                mark,
                body,
            } => said_copied(by, to, *epoch, *index, mark, body),
            Entry::Again { by, to, epoch } => again_copied(by, to, *epoch),
            Entry::Got {
                by,
                to,
                epoch,
                index,
                receiver,
            } => got_copied(by, to, *epoch, *index, receiver),
            Entry::Took {
                by,
                port,
                mark,
                body,
            } => took_copied(by, *port, mark, body),
            Entry::Port { process, port } => Ok(Entry::Port {
                process: process.copy()?,
                port: *port,
            }),
            Entry::Over { process, reason } => over_copied(process, reason),
            Entry::Doom { process, text } => doom_copied(process, text),
            Entry::Watch {
                watch,
                by,
                target,
                kind,
            } => watch_copied(watch, by, target, *kind),
            Entry::Unwatch { watch } => Ok(Entry::Unwatch {
                watch: watch.copy()?,
            }),
            Entry::Absent { watch } => Ok(Entry::Absent {
                watch: watch.copy()?,
            }),
            Entry::Told { watch, reason } => told_copied(watch, reason),
            Entry::Asked { question, by, at } => asked_copied(question, by, at),
            Entry::Spawned { question, process } => spawned_copied(question, process),
            Entry::Isat { question, found } => isat_copied(question, found),
            Entry::Named {
                node,
                name,
                process,
            } => named_copied(node, name, process),
            Entry::Shut { node } => Ok(Entry::Shut { node: node.copy()? }),
            Entry::Dial { sock } => Ok(Entry::Dial { sock: sock.copy()? }),
            Entry::Knocked { sock } => Ok(Entry::Knocked { sock: sock.copy()? }),
            Entry::Poked { sock, bytes } => poked_copied(sock, bytes),
            Entry::Quitted { sock } => Ok(Entry::Quitted { sock: sock.copy()? }),
            Entry::Joined { sock } => Ok(Entry::Joined { sock: sock.copy()? }),
            Entry::Came { sock } => Ok(Entry::Came { sock: sock.copy()? }),
            Entry::Refused { sock } => Ok(Entry::Refused { sock: sock.copy()? }),
            Entry::Cut { sock, end } => Ok(Entry::Cut {
                sock: sock.copy()?,
                end: *end,
            }),
            Entry::Lost { sock, end } => Ok(Entry::Lost {
                sock: sock.copy()?,
                end: *end,
            }),
            Entry::Timed { node, peer } => timed_copied(node, peer),
            Entry::Fed { sock, end, count } => Ok(Entry::Fed {
                sock: sock.copy()?,
                end: *end,
                count: *count,
            }),
            Entry::Wrote { sock, end, bytes } => wrote_copied(sock, *end, bytes),
            Entry::Up { sock, end } => Ok(Entry::Up {
                sock: sock.copy()?,
                end: *end,
            }),
            Entry::Down { sock, end } => Ok(Entry::Down {
                sock: sock.copy()?,
                end: *end,
            }),
            Entry::Left { sock, end } => Ok(Entry::Left {
                sock: sock.copy()?,
                end: *end,
            }),
            Entry::Broke { node, peer, why } => broke_copied(node, peer, *why),
            Entry::Settled => Ok(Entry::Settled),
        }
    }
}

fn copy_reference(spawn: &Option<RefName>) -> Result<Option<RefName>, OutOfMemory>
    ensures { IfOk result (λ copied. copied ≡ spawn.now) }
{
    match spawn {
        None => Ok(None),
        Some(reference) => Ok(Some(reference.copy()?)),
    }
}

fn copy_name(label: &Option<Name>) -> Result<Option<Name>, OutOfMemory>
    ensures { IfOk result (λ copied. copied ≡ label.now) }
{
    match label {
        None => Ok(None),
        Some(name) => Ok(Some(name.copy()?)),
    }
}

fn copy_process(process: &Option<ProcName>) -> Result<Option<ProcName>, OutOfMemory>
    ensures { IfOk result (λ copied. copied ≡ process.now) }
{
    match process {
        None => Ok(None),
        Some(name) => Ok(Some(name.copy()?)),
    }
}

fn made_copied(
    process: &ProcName,
    spawn: &Option<RefName>,
    label: &Option<Name>,
) -> Result<Entry, OutOfMemory>
    ensures { IfOk result (λ copied. copied ≡ entries.Made process.now spawn.now label.now) }
{
    Ok(Entry::Made {
        process: process.copy()?,
        spawn: copy_reference(spawn)?,
        label: copy_name(label)?,
    })
}

fn said_copied(
    by: &ProcName,
    to: &TargetName,
    epoch: u64,
    index: u64,
    mark: &Name,
    body: &Text,
) -> Result<Entry, OutOfMemory>
    ensures { IfOk result (λ copied. copied ≡ entries.Said by.now to.now epoch index mark.now body.now) }
{
    Ok(Entry::Said {
        by: by.copy()?,
        to: to.copy()?,
        epoch,
        index,
        mark: mark.copy()?,
        body: body.copy()?,
    })
}

fn again_copied(by: &ProcName, to: &TargetName, epoch: u64) -> Result<Entry, OutOfMemory>
    ensures { IfOk result (λ copied. copied ≡ entries.Again by.now to.now epoch) }
{
    Ok(Entry::Again {
        by: by.copy()?,
        to: to.copy()?,
        epoch,
    })
}

fn got_copied(
    by: &ProcName,
    to: &TargetName,
    epoch: u64,
    index: u64,
    receiver: &Option<ProcName>,
) -> Result<Entry, OutOfMemory>
    ensures { IfOk result (λ copied. copied ≡ entries.Got by.now to.now epoch index receiver.now) }
{
    Ok(Entry::Got {
        by: by.copy()?,
        to: to.copy()?,
        epoch,
        index,
        receiver: copy_process(receiver)?,
    })
}

fn took_copied(
    by: &ProcName,
    port: Option<u32>,
    mark: &Name,
    body: &Text,
) -> Result<Entry, OutOfMemory>
    ensures { IfOk result (λ copied. copied ≡ entries.Took by.now port mark.now body.now) }
{
    Ok(Entry::Took {
        by: by.copy()?,
        port,
        mark: mark.copy()?,
        body: body.copy()?,
    })
}

fn over_copied(process: &ProcName, reason: &Reason) -> Result<Entry, OutOfMemory>
    ensures { IfOk result (λ copied. copied ≡ entries.Over process.now reason.now) }
{
    Ok(Entry::Over {
        process: process.copy()?,
        reason: reason.copy()?,
    })
}

fn doom_copied(process: &ProcName, text: &Text) -> Result<Entry, OutOfMemory>
    ensures { IfOk result (λ copied. copied ≡ entries.Doom process.now text.now) }
{
    Ok(Entry::Doom {
        process: process.copy()?,
        text: text.copy()?,
    })
}

fn watch_copied(
    watch: &RefName,
    by: &ProcName,
    target: &ProcName,
    kind: Kind,
) -> Result<Entry, OutOfMemory>
    ensures { IfOk result (λ copied. copied ≡ entries.Watch watch.now by.now target.now kind) }
{
    Ok(Entry::Watch {
        watch: watch.copy()?,
        by: by.copy()?,
        target: target.copy()?,
        kind,
    })
}

fn told_copied(watch: &RefName, reason: &Reason) -> Result<Entry, OutOfMemory>
    ensures { IfOk result (λ copied. copied ≡ entries.Told watch.now reason.now) }
{
    Ok(Entry::Told {
        watch: watch.copy()?,
        reason: reason.copy()?,
    })
}

fn asked_copied(question: &RefName, by: &ProcName, at: &Text) -> Result<Entry, OutOfMemory>
    ensures { IfOk result (λ copied. copied ≡ entries.Asked question.now by.now at.now) }
{
    Ok(Entry::Asked {
        question: question.copy()?,
        by: by.copy()?,
        at: at.copy()?,
    })
}

fn spawned_copied(question: &RefName, process: &ProcName) -> Result<Entry, OutOfMemory>
    ensures { IfOk result (λ copied. copied ≡ entries.Spawned question.now process.now) }
{
    Ok(Entry::Spawned {
        question: question.copy()?,
        process: process.copy()?,
    })
}

fn isat_copied(question: &RefName, found: &Option<ProcName>) -> Result<Entry, OutOfMemory>
    ensures { IfOk result (λ copied. copied ≡ entries.Isat question.now found.now) }
{
    Ok(Entry::Isat {
        question: question.copy()?,
        found: copy_process(found)?,
    })
}

fn named_copied(node: &Text, name: &Name, process: &Option<ProcName>) -> Result<Entry, OutOfMemory>
    ensures { IfOk result (λ copied. copied ≡ entries.Named node.now name.now process.now) }
{
    Ok(Entry::Named {
        node: node.copy()?,
        name: name.copy()?,
        process: copy_process(process)?,
    })
}

fn poked_copied(sock: &SockName, bytes: &Text) -> Result<Entry, OutOfMemory>
    ensures { IfOk result (λ copied. copied ≡ entries.Poked sock.now bytes.now) }
{
    Ok(Entry::Poked {
        sock: sock.copy()?,
        bytes: bytes.copy()?,
    })
}

fn timed_copied(node: &Text, peer: &Text) -> Result<Entry, OutOfMemory>
    ensures { IfOk result (λ copied. copied ≡ entries.Timed node.now peer.now) }
{
    Ok(Entry::Timed {
        node: node.copy()?,
        peer: peer.copy()?,
    })
}

fn wrote_copied(sock: &SockName, end: End, bytes: &Text) -> Result<Entry, OutOfMemory>
    ensures { IfOk result (λ copied. copied ≡ entries.Wrote sock.now end bytes.now) }
{
    Ok(Entry::Wrote {
        sock: sock.copy()?,
        end,
        bytes: bytes.copy()?,
    })
}

fn broke_copied(node: &Text, peer: &Text, why: Why) -> Result<Entry, OutOfMemory>
    ensures { IfOk result (λ copied. copied ≡ entries.Broke node.now peer.now why) }
{
    Ok(Entry::Broke {
        node: node.copy()?,
        peer: peer.copy()?,
        why,
    })
}
