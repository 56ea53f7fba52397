//! Ports that carry values of one type. The sending end can be sent in messages, and the receiving end
//! can't: it has no spelling.

ghost use Rattle.std.specs.Prelude.{◌≡◌, Ok, MatchResult, OnErr};
ghost use Rattle.ch_typed.specs.Outcomes.{Fails, Comes};
ghost use Rattle.ch_typed.specs.Reading.{received};
ghost use Rattle.ch_typed.specs.Ports.{channel_of};

use crate::error::TypedError;
use crate::typed::{Typed, unpack};
use ch_ident::{ProcessId, SendPortId};
use ch_mail::Mail;
use std::alloc::Global;
use std::marker::{Model, PhantomData};

/// The sending end of a port. Contracts see its id.
#[derive(Debug, Drop)]
pub struct SendPort<T: Typed> {
    pub(crate) id: SendPortId,
    pub(crate) of: PhantomData<T>,
}

/// The receiving end of a port. Contracts see the process and the port by their numbers.
#[derive(Debug, Drop)]
pub struct ReceivePort<T: Typed> {
    process: u32,
    port: u32,
    alloc: Global,
    of: PhantomData<T>,
}

impl<T: Typed> Model for SendPort<T> {
    ghost use Rattle.ch_ident.specs.declared.identifier.SendPortId.{SendPortId};

    ghost Value = { SendPortId };

    ghost view = { λ port. port.id };
}

impl<T: Typed> Model for ReceivePort<T> {
    ghost use Rattle.ch_typed.specs.Ports.{Place};

    ghost Value = { Place };

    ghost view = { λ port. record { process = port.process; port = port.port } };
}

impl<T: Typed> SendPort<T> {
    /// The port's id, to send to. It takes no memory.
    pub fn id(&self) -> &SendPortId
        ensures { result.now ≡ self.now }
    {
        &self.id
    }
}

impl<T: Typed> ReceivePort<T> {
    /// Takes the port's first message, and gives its value. It is refused with `NotLive` exactly where the
    /// process isn't live, with `Empty` exactly where the port has no message, with `WrongMark` exactly
    /// where the message's mark isn't the type's, and with `BadBody` exactly where its body is no value's
    /// spelling. The last two have taken the message, `OutOfMemory` may have taken it, and the others change
    /// nothing.
    #[tactic(auto, using(crate::proofs::Comings::comes), unfolding(crate::specs::Reading::received))]
    pub fn receive(&mut self, mail: &mut Mail) -> Result<T, TypedError>
        ensures does { Comes result mail.old mail.new (received T.mark T.read mail.old self.old.process self.old.port) }
        ensures same { self.new ≡ self.old }
    {
        let message = mail.take_port(self.process, self.port)?;
        unpack(self.alloc, &message)
    }
}

/// Opens a process's next port, and gives both ends. It is refused with `NotLive` exactly where the process
/// isn't live or wasn't made, and then with `Worn` exactly where the count of its ports can't grow. A
/// refusal changes nothing.
#[tactic(auto, unfolding(crate::specs::Ports::channel_of))]
pub fn channel<T: Typed>(
    alloc: Global,
    mail: &mut Mail,
    own: &ProcessId,
) -> Result<(SendPort<T>, ReceivePort<T>), TypedError>
    ensures does { MatchResult result (λ ends. channel_of mail.old own.now ≡ Ok (ends, mail.new)) (λ e. Fails e (channel_of mail.old own.now)) }
    ensures err { OnErr result (mail.new ≡ mail.old) }
{
    let process = own.copy()?;
    let port = mail.open_port(own.counter)?;
    let send = SendPort {
        id: SendPortId { process, port },
        of: PhantomData,
    };
    let receive = ReceivePort {
        process: own.counter,
        port,
        alloc,
        of: PhantomData,
    };
    Ok((send, receive))
}
