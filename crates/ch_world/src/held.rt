//! What is read of a socket before something happens to it.

ghost use Rattle.std.specs.Prelude.{◌≡◌, ◌+◌, ◌*◌, ◌/◌, IfOk};
ghost use Rattle.ch_model.specs.WorldHappenings.{mark_of};
ghost use Rattle.ch_model.specs.WorldLines.{can_join as can_join_of, can_come as can_come_of, can_refuse as can_refuse_of, is_at_work as is_at_work_of, can_feed as can_feed_of, can_cut as can_cut_of, is_strangers as is_strangers_of};
ghost use Rattle.ch_model.specs.Stages.{is_pending as is_pending_of, is_open as is_open_of, is_ended as is_ended_of};
ghost use Rattle.ch_sockets.specs.Stages.{stage_of};
ghost use Rattle.ch_world.specs.Held.{held_of, coming_of, end_in, socket_coming};

use ch_base::{OutOfMemory, Text};
use ch_model::{End, SockName};
use ch_sockets::{Socket, Stage};

/// An end of a socket: the socket's name, the place of the end's host among the cells, and the host's number for
/// the socket, where it is of a host and has one.
#[derive(Debug, Drop)]
pub(crate) struct Held {
    pub(crate) sock: SockName,
    pub(crate) cell: Option<usize>,
    pub(crate) number: Option<u64>,
}

/// A socket whose target's end may come: its name, its opener's host text, the place of its target's host, and what
/// is known of its opener's end.
#[derive(Debug, Drop)]
pub(crate) struct Coming {
    pub(crate) sock: SockName,
    pub(crate) from_host: Text,
    pub(crate) cell: Option<usize>,
    pub(crate) opener_cell: Option<usize>,
    pub(crate) opener_number: Option<u64>,
}

/// An end of a socket.
pub(crate) fn held_end(socket: &Socket, which: End) -> Result<Held, OutOfMemory>
    ensures { IfOk result (λ held. held ≡ held_of which socket.now) }
{
    let end = socket.end(which);
    Ok(Held {
        sock: socket.name().copy()?,
        cell: end.cell(),
        number: end.number(),
    })
}

/// A socket whose target's end may come.
pub(crate) fn coming_socket(socket: &Socket) -> Result<Coming, OutOfMemory>
    ensures { IfOk result (λ coming. coming ≡ coming_of socket.now) }
{
    let opener = socket.end(End::O);
    Ok(Coming {
        sock: socket.name().copy()?,
        from_host: socket.from_host().copy()?,
        cell: socket.end(End::T).cell(),
        opener_cell: opener.cell(),
        opener_number: opener.number(),
    })
}

fn is_pending(stage: Stage) -> bool
    ensures { result ≡ is_pending_of (stage_of stage) }
{
    match stage {
        Stage::Pending => true,
        _ => false,
    }
}

fn is_open(stage: Stage) -> bool
    ensures { result ≡ is_open_of (stage_of stage) }
{
    match stage {
        Stage::Open => true,
        _ => false,
    }
}

fn is_ended(stage: Stage) -> bool
    ensures { result ≡ is_ended_of (stage_of stage) }
{
    match stage {
        Stage::Ended => true,
        _ => false,
    }
}

/// Whether the opener's end is pending, and the target's host is there.
pub(crate) fn can_join(socket: &Socket) -> bool
    ensures { result ≡ can_join_of socket.now }
{
    is_pending(socket.end(End::O).stage()) && socket.end(End::T).is_of_host()
}

/// Whether the target's end is pending.
pub(crate) fn can_come(socket: &Socket) -> bool
    ensures { result ≡ can_come_of socket.now }
{
    is_pending(socket.end(End::T).stage())
}

/// Whether the opener's end is pending.
pub(crate) fn can_refuse(socket: &Socket) -> bool
    ensures { result ≡ can_refuse_of socket.now }
{
    is_pending(socket.end(End::O).stage())
}

/// Whether an end is of a host and open.
pub(crate) fn is_at_work(socket: &Socket, which: End) -> bool
    ensures { result ≡ is_at_work_of which socket.now }
{
    is_open(socket.end(which).stage()) && socket.end(which).is_of_host()
}

/// Whether an end is at work, and there is something to be handed to it.
pub(crate) fn can_feed(socket: &Socket, which: End) -> bool
    ensures { result ≡ can_feed_of which socket.now }
{
    is_at_work(socket, which) && socket.has_input(which)
}

/// Whether an end is at work, and something may still arrive at it.
pub(crate) fn can_cut(socket: &Socket, which: End) -> bool
    ensures { result ≡ can_cut_of which socket.now }
{
    is_at_work(socket, which) && !socket.end(which).is_cut()
}

/// Whether it is a stranger's socket whose opener's end stands.
pub(crate) fn is_strangers(socket: &Socket) -> bool
    ensures { result ≡ is_strangers_of socket.now }
{
    !socket.end(End::O).is_of_host() && !is_ended(socket.end(End::O).stage())
}

/// The mark that an opener sends ahead of a socket. Where it doesn't fit 64 bits, that is answered as want of memory.
pub(crate) fn mark(coming: &Coming) -> Result<u64, OutOfMemory>
    ensures { IfOk result (λ mark. mark ≡ mark_of (socket_coming coming.now).o) }
{
    match coming.opener_cell {
        None => Ok(0),
        Some(place) => match coming.opener_number {
            None => Ok(0),
            Some(number) => marked(place as u64, number),
        },
    }
}

/// The mark of the host at a place, for its dial of that number.
fn marked(place: u64, number: u64) -> Result<u64, OutOfMemory>
    ensures { IfOk result (λ mark. mark ≡ 4294967296 * place + number / 2 + 1) }
{
    let ahead = place.checked_mul(4294967296).ok_or(OutOfMemory)?;
    let dials = ahead.checked_add(number / 2).ok_or(OutOfMemory)?;
    dials.checked_add(1).ok_or(OutOfMemory)
}
