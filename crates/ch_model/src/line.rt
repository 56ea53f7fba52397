//! The lines of a journal, read.

ghost use Rattle.std.specs.Prelude.{◌≡◌, IfOk};
ghost use Rattle.ch_model.specs.declared.line.What.TheVariants as lines;

use crate::name::{End, ProcName, RefName, SockName, TargetName};
use ch_base::{Address, OutOfMemory, Text};
use ch_ident::Name;
use std::alloc::Global;
use std::marker::Model;

/// A line with its number in the text, from 1.
#[derive(Debug, Drop)]
pub struct Line {
    pub number: u32,
    pub what: What,
}

impl Line {
    /// An equal line.
    pub fn copy(&self) -> Result<Line, OutOfMemory>
        ensures { IfOk result (λ line. line ≡ self.now) }
    {
        Ok(Line {
            number: self.number,
            what: self.what.copy()?,
        })
    }
}

/// Declaration lines in order. Contracts see a list.
#[derive(Debug, Drop)]
pub struct Declared {
    pub lines: Vec<Line>,
}

impl Model for Declared {
    ghost use Rattle.std.specs.Prelude.{List};
    ghost use Rattle.ch_model.specs.declared.line.Line.{Line};

    ghost Value = { List Line };

    ghost view = { λ declared. declared.lines.items };
}

impl Declared {
    /// Equal lines.
    pub fn copy(&self) -> Result<Declared, OutOfMemory>
        ensures { IfOk result (λ declared. declared ≡ self.now) }
    {
        Ok(Declared {
            lines: lines_copied(*self.lines.allocator(), self.lines.as_slice())?,
        })
    }
}

fn lines_copied(alloc: Global, lines: &[Line]) -> Result<Vec<Line>, OutOfMemory>
    ensures { IfOk result (λ own. own.items ≡ lines.now) }
{
    let mut own = Vec::new(alloc);
    for line in lines {
        own.push(line.copy()?)?;
    }
    Ok(own)
}

/// What a line says. The first four are declarations; every other line is an event.
#[derive(Debug, Drop)]
pub enum What {
    /// A node, its address and its unique number.
    Node {
        name: Text,
        address: Address,
        unique: u32,
    },
    /// A name for an address that is no node of the journal.
    Away {
        name: Text,
        address: Address,
        unique: u32,
    },
    /// The node's table has this label.
    Label {
        node: Text,
        label: Name,
    },
    /// A peer that is no node, with its host text.
    Stranger {
        name: Text,
        host: Text,
    },
    /// A process of this node is made.
    Proc {
        node: Text,
    },
    /// A process sends a message to a process or a port.
    Send {
        by: ProcName,
        to: TargetName,
        mark: Name,
        body: Text,
    },
    /// A process sends a message to a name.
    Nsend {
        by: ProcName,
        to: TargetName,
        mark: Name,
        body: Text,
    },
    /// A process reconnects to a process or a port.
    Again {
        by: ProcName,
        to: TargetName,
    },
    /// A process takes the first message of this mark.
    Recv {
        by: ProcName,
        mark: Name,
    },
    /// A process opens its next port.
    Port {
        by: ProcName,
    },
    /// A process takes the first message of its port.
    Take {
        by: ProcName,
        port: u32,
    },
    /// A process ends by itself.
    End {
        by: ProcName,
    },
    /// A process ends with this exception.
    Fail {
        by: ProcName,
        text: Text,
    },
    /// A doomed process is over by what doomed it.
    Fall {
        by: ProcName,
    },
    /// A process asks for a message when the target is over.
    Monitor {
        by: ProcName,
        target: ProcName,
    },
    /// A process asks to be doomed when the target is over.
    Link {
        by: ProcName,
        target: ProcName,
    },
    /// A process takes a monitor or a link back.
    Unwatch {
        by: ProcName,
        watch: RefName,
    },
    /// A process dooms the target, by `exit` and this text.
    Exit {
        by: ProcName,
        target: ProcName,
        text: Text,
    },
    /// A process dooms the target, by `kill` and this text.
    Kill {
        by: ProcName,
        target: ProcName,
        text: Text,
    },
    /// A process has a process made at a node, with a label and arguments.
    Spawn {
        by: ProcName,
        at: Text,
        label: Name,
        args: Text,
    },
    /// A process registers a name of its node for itself.
    Register {
        by: ProcName,
        name: Name,
    },
    /// A process takes a name of its node away.
    Unregister {
        by: ProcName,
        name: Name,
    },
    /// A process asks a node for which process a name stands.
    Whereis {
        by: ProcName,
        at: Text,
        name: Name,
    },
    /// A node is shut.
    Shut {
        node: Text,
    },
    /// The opener's end of a socket is joined.
    Join {
        sock: SockName,
    },
    /// The target's end of a socket has come.
    Come {
        sock: SockName,
    },
    /// A dial has failed.
    Refuse {
        sock: SockName,
    },
    /// At most so many unread bytes are handed to an end.
    Feed {
        sock: SockName,
        end: End,
        count: u32,
    },
    /// What is unread towards an end is gone, and nothing more arrives there.
    Cut {
        sock: SockName,
        end: End,
    },
    /// An end loses its socket.
    Lose {
        sock: SockName,
        end: End,
    },
    /// The timer of the first node for the second.
    Late {
        node: Text,
        peer: Text,
    },
    /// A stranger opens a socket to a node's host.
    Knock {
        stranger: Text,
        node: Text,
    },
    /// A stranger writes these bytes.
    Poke {
        sock: SockName,
        bytes: Text,
    },
    /// A stranger ends its end.
    Quit {
        sock: SockName,
    },
    /// All that can happen without loss happens, until nothing is left.
    Settle,
}

impl What {
    /// An equal line.
    pub fn copy(&self) -> Result<What, OutOfMemory>
        ensures { IfOk result (λ copied. copied ≡ self.now) }
    {
        match self {
            What::Node {
                name,
                address,
                unique,
            } => node_copied(name, address, *unique),
            What::Away {
                name,
                address,
                unique,
            } => away_copied(name, address, *unique),
            What::Label { node, label } => label_copied(node, label),
            What::Stranger { name, host } => stranger_copied(name, host),
            What::Proc { node } => Ok(What::Proc { node: node.copy()? }),
            What::Send { by, to, mark, body } => send_copied(by, to, mark, body),
            What::Nsend { by, to, mark, body } => nsend_copied(by, to, mark, body),
            What::Again { by, to } => again_copied(by, to),
            What::Recv { by, mark } => recv_copied(by, mark),
            What::Port { by } => Ok(What::Port { by: by.copy()? }),
            What::Take { by, port } => Ok(What::Take {
                by: by.copy()?,
                port: *port,
            }),
            What::End { by } => Ok(What::End { by: by.copy()? }),
            What::Fail { by, text } => fail_copied(by, text),
            What::Fall { by } => Ok(What::Fall { by: by.copy()? }),
            What::Monitor { by, target } => monitor_copied(by, target),
            What::Link { by, target } => link_copied(by, target),
            What::Unwatch { by, watch } => unwatch_copied(by, watch),
            What::Exit { by, target, text } => exit_copied(by, target, text),
            What::Kill { by, target, text } => kill_copied(by, target, text),
            What::Spawn {
                by,
                at,
                label,
                args,
            } => spawn_copied(by, at, label, args),
            What::Register { by, name } => register_copied(by, name),
            What::Unregister { by, name } => unregister_copied(by, name),
            What::Whereis { by, at, name } => whereis_copied(by, at, name),
            What::Shut { node } => Ok(What::Shut { node: node.copy()? }),
            What::Join { sock } => Ok(What::Join { sock: sock.copy()? }),
            What::Come { sock } => Ok(What::Come { sock: sock.copy()? }),
            What::Refuse { sock } => Ok(What::Refuse { sock: sock.copy()? }),
            What::Feed { sock, end, count } => Ok(What::Feed {
                sock: sock.copy()?,
                end: *end,
                count: *count,
            }),
            What::Cut { sock, end } => Ok(What::Cut {
                sock: sock.copy()?,
                end: *end,
            }),
            What::Lose { sock, end } => Ok(What::Lose {
                sock: sock.copy()?,
                end: *end,
            }),
            What::Late { node, peer } => late_copied(node, peer),
            What::Knock { stranger, node } => knock_copied(stranger, node),
            What::Poke { sock, bytes } => poke_copied(sock, bytes),
            What::Quit { sock } => Ok(What::Quit { sock: sock.copy()? }),
            What::Settle => Ok(What::Settle),
        }
    }
}

fn node_copied(name: &Text, address: &Address, unique: u32) -> Result<What, OutOfMemory>
    ensures { IfOk result (λ copied. copied ≡ lines.Node name.now address.now unique) }
{
    Ok(What::Node {
        name: name.copy()?,
        address: address.copy()?,
        unique,
    })
}

fn away_copied(name: &Text, address: &Address, unique: u32) -> Result<What, OutOfMemory>
    ensures { IfOk result (λ copied. copied ≡ lines.Away name.now address.now unique) }
{
    Ok(What::Away {
        name: name.copy()?,
        address: address.copy()?,
        unique,
    })
}

fn label_copied(node: &Text, label: &Name) -> Result<What, OutOfMemory>
    ensures { IfOk result (λ copied. copied ≡ lines.Label node.now label.now) }
{
    Ok(What::Label {
        node: node.copy()?,
        label: label.copy()?,
    })
}

fn stranger_copied(name: &Text, host: &Text) -> Result<What, OutOfMemory>
    ensures { IfOk result (λ copied. copied ≡ lines.Stranger name.now host.now) }
{
    Ok(What::Stranger {
        name: name.copy()?,
        host: host.copy()?,
    })
}

fn send_copied(
    by: &ProcName,
    to: &TargetName,
    mark: &Name,
    body: &Text,
) -> Result<What, OutOfMemory>
    ensures { IfOk result (λ copied. copied ≡ lines.Send by.now to.now mark.now body.now) }
{
    Ok(What::Send {
        by: by.copy()?,
        to: to.copy()?,
        mark: mark.copy()?,
        body: body.copy()?,
    })
}

fn nsend_copied(
    by: &ProcName,
    to: &TargetName,
    mark: &Name,
    body: &Text,
) -> Result<What, OutOfMemory>
    ensures { IfOk result (λ copied. copied ≡ lines.Nsend by.now to.now mark.now body.now) }
{
    Ok(What::Nsend {
        by: by.copy()?,
        to: to.copy()?,
        mark: mark.copy()?,
        body: body.copy()?,
    })
}

fn again_copied(by: &ProcName, to: &TargetName) -> Result<What, OutOfMemory>
    ensures { IfOk result (λ copied. copied ≡ lines.Again by.now to.now) }
{
    Ok(What::Again {
        by: by.copy()?,
        to: to.copy()?,
    })
}

fn recv_copied(by: &ProcName, mark: &Name) -> Result<What, OutOfMemory>
    ensures { IfOk result (λ copied. copied ≡ lines.Recv by.now mark.now) }
{
    Ok(What::Recv {
        by: by.copy()?,
        mark: mark.copy()?,
    })
}

fn fail_copied(by: &ProcName, text: &Text) -> Result<What, OutOfMemory>
    ensures { IfOk result (λ copied. copied ≡ lines.Fail by.now text.now) }
{
    Ok(What::Fail {
        by: by.copy()?,
        text: text.copy()?,
    })
}

fn monitor_copied(by: &ProcName, target: &ProcName) -> Result<What, OutOfMemory>
    ensures { IfOk result (λ copied. copied ≡ lines.Monitor by.now target.now) }
{
    Ok(What::Monitor {
        by: by.copy()?,
        target: target.copy()?,
    })
}

fn link_copied(by: &ProcName, target: &ProcName) -> Result<What, OutOfMemory>
    ensures { IfOk result (λ copied. copied ≡ lines.Link by.now target.now) }
{
    Ok(What::Link {
        by: by.copy()?,
        target: target.copy()?,
    })
}

fn unwatch_copied(by: &ProcName, watch: &RefName) -> Result<What, OutOfMemory>
    ensures { IfOk result (λ copied. copied ≡ lines.Unwatch by.now watch.now) }
{
    Ok(What::Unwatch {
        by: by.copy()?,
        watch: watch.copy()?,
    })
}

fn exit_copied(by: &ProcName, target: &ProcName, text: &Text) -> Result<What, OutOfMemory>
    ensures { IfOk result (λ copied. copied ≡ lines.Exit by.now target.now text.now) }
{
    Ok(What::Exit {
        by: by.copy()?,
        target: target.copy()?,
        text: text.copy()?,
    })
}

fn kill_copied(by: &ProcName, target: &ProcName, text: &Text) -> Result<What, OutOfMemory>
    ensures { IfOk result (λ copied. copied ≡ lines.Kill by.now target.now text.now) }
{
    Ok(What::Kill {
        by: by.copy()?,
        target: target.copy()?,
        text: text.copy()?,
    })
}

fn spawn_copied(by: &ProcName, at: &Text, label: &Name, args: &Text) -> Result<What, OutOfMemory>
    ensures { IfOk result (λ copied. copied ≡ lines.Spawn by.now at.now label.now args.now) }
{
    Ok(What::Spawn {
        by: by.copy()?,
        at: at.copy()?,
        label: label.copy()?,
        args: args.copy()?,
    })
}

fn register_copied(by: &ProcName, name: &Name) -> Result<What, OutOfMemory>
    ensures { IfOk result (λ copied. copied ≡ lines.Register by.now name.now) }
{
    Ok(What::Register {
        by: by.copy()?,
        name: name.copy()?,
    })
}

fn unregister_copied(by: &ProcName, name: &Name) -> Result<What, OutOfMemory>
    ensures { IfOk result (λ copied. copied ≡ lines.Unregister by.now name.now) }
{
    Ok(What::Unregister {
        by: by.copy()?,
        name: name.copy()?,
    })
}

fn whereis_copied(by: &ProcName, at: &Text, name: &Name) -> Result<What, OutOfMemory>
    ensures { IfOk result (λ copied. copied ≡ lines.Whereis by.now at.now name.now) }
{
    Ok(What::Whereis {
        by: by.copy()?,
        at: at.copy()?,
        name: name.copy()?,
    })
}

fn late_copied(node: &Text, peer: &Text) -> Result<What, OutOfMemory>
    ensures { IfOk result (λ copied. copied ≡ lines.Late node.now peer.now) }
{
    Ok(What::Late {
        node: node.copy()?,
        peer: peer.copy()?,
    })
}

fn knock_copied(stranger: &Text, node: &Text) -> Result<What, OutOfMemory>
    ensures { IfOk result (λ copied. copied ≡ lines.Knock stranger.now node.now) }
{
    Ok(What::Knock {
        stranger: stranger.copy()?,
        node: node.copy()?,
    })
}

fn poke_copied(sock: &SockName, bytes: &Text) -> Result<What, OutOfMemory>
    ensures { IfOk result (λ copied. copied ≡ lines.Poke sock.now bytes.now) }
{
    Ok(What::Poke {
        sock: sock.copy()?,
        bytes: bytes.copy()?,
    })
}
