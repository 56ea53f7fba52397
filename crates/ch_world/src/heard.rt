//! What happens to a host's end of a socket.

ghost use Rattle.std.specs.Prelude.{◌≡◌};
ghost use Rattle.ch_world.specs.Answers.{event_of};

use ch_base::Text;
use ch_model::SocketEvent;

/// What happens to a host's end of a socket, before the host's number for it is known.
#[derive(Debug, Drop)]
pub(crate) enum Heard {
    /// The opener's end is open.
    Joined,
    /// The dial has failed.
    Refused,
    /// Bytes arrived, at least one.
    Fed(Text),
    /// The end of the input.
    Ended,
    /// The socket is lost.
    Lost,
}

/// The event that a host hears of the socket that it has under a number.
pub(crate) fn event(heard: Heard, sock: u64) -> SocketEvent
    ensures { result ≡ event_of heard sock }
{
    match heard {
        Heard::Joined => SocketEvent::Joined { sock },
        Heard::Refused => SocketEvent::Refused { sock },
        Heard::Fed(bytes) => SocketEvent::Fed { sock, bytes },
        Heard::Ended => SocketEvent::Ended { sock },
        Heard::Lost => SocketEvent::Lost { sock },
    }
}
