//! The link table, each row once, and inputs that change nothing.

use ch_base::Why;
use ch_link::{LinkAct, LinkAnswer, LinkIn, LinkState, step};

const IDLE: LinkState = LinkState::Idle;

const DIALING: LinkState = LinkState::Dialing { sock: 4 };

const AWAITS: LinkState = LinkState::AwaitOther;

const UP: LinkState = LinkState::Up {
    sock: 4,
    probed: false,
};

const PROBED: LinkState = LinkState::Up {
    sock: 4,
    probed: true,
};

const UP_ON_THE_OTHER: LinkState = LinkState::Up {
    sock: 7,
    probed: false,
};

const WANT: LinkIn = LinkIn::Want { sock: 4 };

const WANT_MORE: LinkIn = LinkIn::Want { sock: 6 };

const ASKED: LinkIn = LinkIn::Asked { sock: 7 };

const ACCEPTED: LinkIn = LinkIn::Answered(LinkAnswer::Accepted);

const CROSSED: LinkIn = LinkIn::Answered(LinkAnswer::Crossed);

const INVALID: LinkIn = LinkIn::Answered(LinkAnswer::Invalid);

const MISMATCH: LinkIn = LinkIn::Answered(LinkAnswer::Mismatch);

const DISCONNECT: LinkAct = LinkAct::Fail(Why::Disconnect);

const NODE_DOWN: LinkAct = LinkAct::Fail(Why::NodeDown);

/// Rows that don't ask which address is the greater.
#[test]
fn rows_of_the_table(rt: HostRuntime) {
    let rows = [
        (IDLE, WANT, DIALING, LinkAct::Dial),
        (DIALING, WANT_MORE, DIALING, LinkAct::Nothing),
        (AWAITS, WANT_MORE, AWAITS, LinkAct::Nothing),
        (UP, WANT_MORE, UP, LinkAct::Nothing),
        (IDLE, ASKED, UP_ON_THE_OTHER, LinkAct::Accept),
        (AWAITS, ASKED, UP_ON_THE_OTHER, LinkAct::Accept),
        (UP, ASKED, PROBED, LinkAct::CrossAndProbe { old: 4 }),
        (PROBED, ASKED, PROBED, LinkAct::Cross),
        (DIALING, ACCEPTED, UP, LinkAct::Raise),
        (DIALING, CROSSED, AWAITS, LinkAct::Leave { own: 4 }),
        (DIALING, INVALID, IDLE, NODE_DOWN),
        (DIALING, MISMATCH, IDLE, DISCONNECT),
        (DIALING, LinkIn::Gone, IDLE, DISCONNECT),
        (UP, LinkIn::Gone, IDLE, DISCONNECT),
        (UP, LinkIn::EndClosed, IDLE, NODE_DOWN),
        (UP, LinkIn::Probe, UP, LinkAct::Acknowledge),
        (PROBED, LinkIn::Probe, PROBED, LinkAct::Acknowledge),
        (PROBED, LinkIn::Ack, UP, LinkAct::Nothing),
        (DIALING, LinkIn::Late, IDLE, DISCONNECT),
        (AWAITS, LinkIn::Late, IDLE, DISCONNECT),
        (PROBED, LinkIn::Late, IDLE, DISCONNECT),
        (IDLE, LinkIn::Late, IDLE, LinkAct::Nothing),
        (UP, LinkIn::Late, UP, LinkAct::Nothing),
        (IDLE, LinkIn::Shut, IDLE, LinkAct::Close),
        (DIALING, LinkIn::Shut, IDLE, LinkAct::Close),
        (AWAITS, LinkIn::Shut, IDLE, LinkAct::Close),
        (PROBED, LinkIn::Shut, IDLE, LinkAct::Close),
    ];
    for (state, input, next, act) in rows {
        assert_eq!(rt; step(state, input, false), (next, act));
        assert_eq!(rt; step(state, input, true), (next, act));
    }
}

/// A link that dials is asked: the greater address stays with its own socket.
#[test]
fn crossed_requests(rt: HostRuntime) {
    assert_eq!(rt; step(DIALING, ASKED, true), (DIALING, LinkAct::Cross));
    assert_eq!(rt;
        step(DIALING, ASKED, false),
        (UP_ON_THE_OTHER, LinkAct::LeaveAndAccept { own: 4 })
    );
}

/// What is in no row changes nothing.
#[test]
fn inputs_that_mean_nothing(rt: HostRuntime) {
    let rows = [
        (IDLE, ACCEPTED),
        (IDLE, LinkIn::Gone),
        (IDLE, LinkIn::EndClosed),
        (IDLE, LinkIn::Probe),
        (IDLE, LinkIn::Ack),
        (DIALING, LinkIn::EndClosed),
        (DIALING, LinkIn::Probe),
        (DIALING, LinkIn::Ack),
        (AWAITS, CROSSED),
        (AWAITS, LinkIn::Gone),
        (AWAITS, LinkIn::EndClosed),
        (AWAITS, LinkIn::Probe),
        (AWAITS, LinkIn::Ack),
        (UP, INVALID),
        (PROBED, MISMATCH),
    ];
    for (state, input) in rows {
        assert_eq!(rt; step(state, input, true), (state, LinkAct::Nothing));
    }
}
