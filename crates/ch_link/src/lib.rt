//! The link of an endpoint with one peer: what each input makes of it, as a table.
//!
//! An endpoint keeps one link for each peer. It gives the link's state, and what it heard, to `step`,
//! keeps the state that comes back and does the act. Below stand the reasons of a failure, above the endpoints.
#![tactic(auto)]

ghost use Rattle.std.specs.Prelude.{◌≡◌, ℕ, Bool, true, false, not};
ghost use Rattle.ch_link.specs.Table.{step_of};
ghost use Rattle.ch_link.specs.Sockets.{names, asks, brings, closes, accepts, fails, timer_runs, IsOneOf};

use ch_base::Why;

/// What an endpoint thinks of its link with one peer. `sock` is the key of a socket at its host.
#[derive(Clone, Copy, Debug, PartialEq, Eq)]
pub enum LinkState {
    /// No socket, and none is wanted.
    Idle,
    /// Own socket `sock` was dialed, and its answer hasn't come.
    Dialing { sock: u64 },
    /// Own request was crossed: the peer's request is to come.
    AwaitOther,
    /// Messages go on `sock`. While `probed`, it is unknown whether the peer still stands there.
    Up { sock: u64, probed: bool },
}

/// What a link hears.
#[derive(Clone, Copy, Debug, PartialEq, Eq)]
pub enum LinkIn {
    /// Something is to be written. `sock` is the key for a socket that is dialed now.
    Want { sock: u64 },
    /// The peer asks for a socket, on `sock`.
    Asked { sock: u64 },
    /// The peer answered the own request.
    Answered(LinkAnswer),
    /// The link's socket was refused, lost or ended, or a bad item was read on it.
    Gone,
    /// The peer closed its endpoint.
    EndClosed,
    /// The peer asks whether the link's socket still stands.
    Probe,
    /// The peer answered a probe.
    Ack,
    /// The link's timer ran out.
    Late,
    /// The own endpoint is closed.
    Shut,
}

/// The answer to a request.
#[derive(Clone, Copy, Debug, PartialEq, Eq)]
pub enum LinkAnswer {
    /// The socket is taken.
    Accepted,
    /// There is no such endpoint.
    Invalid,
    /// The peer's own request goes first, or its socket still counts as up.
    Crossed,
    /// The request isn't from where it says.
    Mismatch,
}

/// What the endpoint does.
#[derive(Clone, Copy, Debug, PartialEq, Eq)]
pub enum LinkAct {
    /// Nothing.
    Nothing,
    /// Dial the wanted socket.
    Dial,
    /// Take the socket that asks.
    Accept,
    /// Answer Crossed to the socket that asks, and close it.
    Cross,
    /// Close the own socket `own`, and take the one that asks.
    LeaveAndAccept { own: u64 },
    /// Answer Crossed to the socket that asks, close it, and probe `old`.
    CrossAndProbe { old: u64 },
    /// The own socket is up.
    Raise,
    /// Close the own socket `own`.
    Leave { own: u64 },
    /// The link has failed: close its socket, if it has one.
    Fail(Why),
    /// Answer the probe.
    Acknowledge,
    /// Close the link's socket, if it has one.
    Close,
}

/// What an input makes of a link, and what is to be done. It takes no memory and refuses nothing.
///
/// `ours_greater` says that the own address is the greater of the two: of two requests that cross, the one
/// of the greater address is taken. A request that reaches a link that is up is crossed, and the old socket
/// is probed. An input that means nothing to the state, as an answer to a link that doesn't dial, changes nothing.
#[tactic(auto, unfolding(crate::specs::Table::step_of))]
pub fn step(state: LinkState, input: LinkIn, ours_greater: bool) -> (LinkState, LinkAct)
    ensures table { result ≡ step_of state input ours_greater }
{
    match input {
        LinkIn::Want { sock } => match state {
            LinkState::Idle => (LinkState::Dialing { sock }, LinkAct::Dial),
            _ => (state, LinkAct::Nothing),
        },
        LinkIn::Asked { sock } => asked(state, sock, ours_greater),
        LinkIn::Answered(answer) => match state {
            LinkState::Dialing { sock } => answered(sock, answer),
            _ => (state, LinkAct::Nothing),
        },
        LinkIn::Gone => match state {
            LinkState::Dialing { .. } | LinkState::Up { .. } => failed(Why::Disconnect),
            _ => (state, LinkAct::Nothing),
        },
        LinkIn::EndClosed => match state {
            LinkState::Up { .. } => failed(Why::NodeDown),
            _ => (state, LinkAct::Nothing),
        },
        LinkIn::Probe => match state {
            LinkState::Up { .. } => (state, LinkAct::Acknowledge),
            _ => (state, LinkAct::Nothing),
        },
        LinkIn::Ack => match state {
            LinkState::Up { sock, .. } => (up(sock), LinkAct::Nothing),
            _ => (state, LinkAct::Nothing),
        },
        LinkIn::Late => late(state),
        LinkIn::Shut => (LinkState::Idle, LinkAct::Close),
    }
}

/// The peer asks on `sock`.
#[tactic(auto, unfolding(crate::specs::Table::step_of))]
fn asked(state: LinkState, sock: u64, ours_greater: bool) -> (LinkState, LinkAct)
    ensures { result ≡ step_of state (LinkIn.Asked sock) ours_greater }
{
    match state {
        LinkState::Idle | LinkState::AwaitOther => (up(sock), LinkAct::Accept),
        LinkState::Dialing { sock: own } => {
            if ours_greater {
                (state, LinkAct::Cross)
            } else {
                (up(sock), LinkAct::LeaveAndAccept { own })
            }
        }
        LinkState::Up { sock: old, probed } => {
            if probed {
                (state, LinkAct::Cross)
            } else {
                (
                    LinkState::Up {
                        sock: old,
                        probed: true,
                    },
                    LinkAct::CrossAndProbe { old },
                )
            }
        }
    }
}

/// The peer answered the request on the own socket `sock`.
#[tactic(auto, unfolding(crate::specs::Table::step_of))]
fn answered(sock: u64, answer: LinkAnswer) -> (LinkState, LinkAct)
    ensures { (greater : Bool) → result ≡ step_of (LinkState.Dialing sock) (LinkIn.Answered answer) greater }
{
    match answer {
        LinkAnswer::Accepted => (up(sock), LinkAct::Raise),
        LinkAnswer::Crossed => (LinkState::AwaitOther, LinkAct::Leave { own: sock }),
        LinkAnswer::Invalid => failed(Why::NodeDown),
        LinkAnswer::Mismatch => failed(Why::Disconnect),
    }
}

/// The link's timer ran out.
#[tactic(auto, unfolding(crate::specs::Table::step_of))]
fn late(state: LinkState) -> (LinkState, LinkAct)
    ensures { (greater : Bool) → result ≡ step_of state LinkIn.Late greater }
{
    match state {
        LinkState::Idle => (state, LinkAct::Nothing),
        LinkState::Dialing { .. } | LinkState::AwaitOther => failed(Why::Disconnect),
        LinkState::Up { probed, .. } => {
            if probed {
                failed(Why::Disconnect)
            } else {
                (state, LinkAct::Nothing)
            }
        }
    }
}

/// A link that has just come up, or was found to stand.
fn up(sock: u64) -> LinkState
    ensures { result ≡ LinkState.Up sock false }
{
    LinkState::Up {
        sock,
        probed: false,
    }
}

/// A link that has failed.
fn failed(why: Why) -> (LinkState, LinkAct)
    ensures { result ≡ (LinkState.Idle, LinkAct.Fail why) }
{
    (LinkState::Idle, LinkAct::Fail(why))
}

/// What the table keeps, whatever the state and the input.
///
/// A link's timer fails it exactly where one runs. Of the socket that the state names and the one that asks, where
/// they are two, the act closes exactly those that the new state doesn't name. The new state names no socket
/// but that of the old state or of the input. A shut leads to Idle from everywhere, and closes the link's socket.
pub fn table_laws()
    ensures late { (state : LinkState) (greater : Bool) → fails (step_of state LinkIn.Late greater).1 ≡ timer_runs state }
    ensures closed { (state : LinkState) (input : LinkIn) (greater : Bool) (sock : ℕ) → IsOneOf (names state sock) (asks input sock)
        → closes state input (step_of state input greater).1 sock ≡ not (names (step_of state input greater).0 sock) }
    ensures named { (state : LinkState) (input : LinkIn) (greater : Bool) (sock : ℕ) → names (step_of state input greater).0 sock ≡ true
        → names state sock ≡ false → brings input sock ≡ true }
    ensures shut { (state : LinkState) (greater : Bool) → step_of state LinkIn.Shut greater ≡ (LinkState.Idle, LinkAct.Close) }
{}

/// Of two requests that cross exactly one is accepted, the one dialed by the end of the greater address.
///
/// Both ends dial, each on a socket of its own, and each is asked by the other. The end of the greater address
/// accepts nothing and goes on dialing; the other leaves its own socket and is up on the one that came.
pub fn crossed_requests()
    ensures one { (own came own' came' : ℕ) (greater : Bool) →
        accepts (step_of (LinkState.Dialing own) (LinkIn.Asked came) greater).1
        ≡ not (accepts (step_of (LinkState.Dialing own') (LinkIn.Asked came') (not greater)).1) }
    ensures greater { (own came : ℕ) → step_of (LinkState.Dialing own) (LinkIn.Asked came) true ≡ (LinkState.Dialing own, LinkAct.Cross) }
    ensures lesser { (own came : ℕ) → step_of (LinkState.Dialing own) (LinkIn.Asked came) false
        ≡ (LinkState.Up came false, LinkAct.LeaveAndAccept own) }
{}
