//! Processes and the sending ends of ports as values: a message can say to whom to answer.

ghost use Rattle.std.specs.Prelude.{◌≡◌};
ghost use Rattle.ch_base.specs.Addresses.{IsAddress};
ghost use Rattle.ch_ident.specs.Fits.{IsProcess, IsPort};
ghost use Rattle.ch_typed.specs.Values.{of_reading};

use crate::error::TypedError;
use crate::port::SendPort;
use crate::typed::Typed;
use ch_base::{Address, OutOfMemory};
use ch_ident::{IdentError, Identifier, ProcessId, SendPortId, put_identifier, take_identifier};
use std::alloc::Global;
use std::marker::PhantomData;

impl Typed for ProcessId {
    ghost use Rattle.std.specs.Prelude.{codes, refl};
    ghost use Rattle.ch_ident.specs.Fits.{IsProcess};
    ghost use Rattle.ch_typed.specs.Values.{process_spelling, process_read};
    ghost use Rattle.ch_typed.specs.ValueLaws.{process_again, process_exact};

    ghost mark = { codes "process" };

    ghost fits = { IsProcess };

    ghost spelling = { process_spelling };

    ghost read = { process_read };

    const MARK: &'static [u8] = b"process";

    fn mark_bytes() -> &'static [u8] {
        Self::MARK
    }

    /// The process as an identifier.
    fn put(&self, out: &mut Vec<u8>) -> Result<(), OutOfMemory> {
        known_process(self);
        let identifier = Identifier::Process(self.copy()?);
        put_identifier(&identifier, out)
    }

    #[tactic(auto, using(crate::specs::ValueLaws::refused))]
    fn take(alloc: Global, bytes: &[u8]) -> Result<ProcessId, TypedError> {
        match take_identifier(alloc, bytes) {
            Ok(Identifier::Process(process)) => Ok(process),
            Ok(Identifier::Node(_)) => Err(TypedError::BadBody),
            Ok(Identifier::Port(_)) => Err(TypedError::BadBody),
            Err(e) => Err(refusal_of(e)),
        }
    }

    ghost is_mark = { refl };

    ghost again = { process_again };

    ghost exact = { process_exact };
}

impl<T: Typed> Typed for SendPort<T> {
    ghost use Rattle.std.specs.Prelude.{codes, refl};
    ghost use Rattle.ch_ident.specs.Fits.{IsPort};
    ghost use Rattle.ch_typed.specs.Values.{port_spelling, port_read};
    ghost use Rattle.ch_typed.specs.ValueLaws.{port_again, port_exact};

    ghost mark = { codes "sendport" };

    ghost fits = { IsPort };

    ghost spelling = { port_spelling };

    ghost read = { port_read };

    const MARK: &'static [u8] = SEND_PORT;

    fn mark_bytes() -> &'static [u8] {
        SEND_PORT
    }

    /// The port as an identifier.
    fn put(&self, out: &mut Vec<u8>) -> Result<(), OutOfMemory> {
        known_port(&self.id);
        let identifier = Identifier::Port(self.id.copy()?);
        put_identifier(&identifier, out)
    }

    #[tactic(auto, using(crate::specs::ValueLaws::refused))]
    fn take(alloc: Global, bytes: &[u8]) -> Result<SendPort<T>, TypedError> {
        match take_identifier(alloc, bytes) {
            Ok(Identifier::Port(id)) => Ok(SendPort {
                id,
                of: PhantomData,
            }),
            Ok(Identifier::Node(_)) => Err(TypedError::BadBody),
            Ok(Identifier::Process(_)) => Err(TypedError::BadBody),
            Err(e) => Err(refusal_of(e)),
        }
    }

    ghost is_mark = { refl };

    ghost again = { port_again };

    ghost exact = { port_exact };
}

/// The mark of sending ends.
const SEND_PORT: &'static [u8] = b"sendport";

fn refusal_of(e: IdentError) -> TypedError
    ensures { result ≡ of_reading e }
{
    match e {
        IdentError::OutOfMemory => TypedError::OutOfMemory,
        IdentError::Short => TypedError::BadBody,
        IdentError::BadTag => TypedError::BadBody,
        IdentError::BadText => TypedError::BadBody,
        IdentError::Extra => TypedError::BadBody,
    }
}

/// What each address keeps.
fn known_address(address: &Address)
    ensures { IsAddress address.now }
{
    let _host = &address.host;
    let _port = address.port;
    let _id = address.id;
}

/// What each process id keeps.
fn known_process(process: &ProcessId)
    ensures { IsProcess process.now }
{
    known_address(&process.node);
    let _unique = process.unique;
    let _counter = process.counter;
}

/// What each port id keeps.
fn known_port(port: &SendPortId)
    ensures { IsPort port.now }
{
    known_process(&port.process);
    let _port = port.port;
}
