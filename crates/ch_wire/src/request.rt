//! The request for a socket: whom it is for, and whom it is from.

ghost use Rattle.std.specs.Prelude.{◌≡◌, ◌++◌, OnOk, OnErr};
ghost use Rattle.ch_wire.specs.Spelling.{request_spelling};

use crate::word::put_counted;
use ch_base::{Address, OutOfMemory};

/// The first item from a socket's opener.
#[derive(Debug, Drop)]
pub struct Request {
    /// The number of the endpoint that is asked for.
    pub target: u32,
    /// The address of the endpoint that asks.
    pub from: Address,
}

/// Appends the spelling of a request: the target's number as a word, the length of the address's
/// text as a word, and the text. Without memory the vector stays as it was.
pub fn put_request(request: &Request, out: &mut Vec<u8>) -> Result<(), OutOfMemory>
    ensures ok { OnOk result (out.new.items ≡ out.old.items ++ request_spelling request.now) }
    ensures err { OnErr result (out.new.items ≡ out.old.items) }
{
    let from = &request.from;
    let _host = &from.host;
    let text = from.text()?;
    put_counted(request.target, text.as_slice(), out)
}
