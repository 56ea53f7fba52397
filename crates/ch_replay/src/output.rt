//! Writing the whole of a text to a sink.

ghost use Rattle.std.specs.Prelude.{◌≡◌, ◌≤◌, ◌++◌, drop, length, OnOk, OnErr};
ghost use Rattle.ch_base.specs.Outside.{Rose};
ghost use Rattle.ch_replay.specs.Outside.{Appended, AppendedSome};

use ch_base::{Failed, Sink};

/// Writes all of a text. It fails only where the sink's count of faults rose in this call, and some
/// first bytes of the text may have been taken then.
pub(crate) fn write_all<K: Sink>(sink: &mut K, text: &[u8]) -> Result<(), Failed>
    ensures ok { OnOk result (Appended text.now (K.held sink.old) (K.held sink.new)) }
    ensures err { OnErr result (AppendedSome text.now (K.held sink.old) (K.held sink.new)) }
    ensures failed { OnErr result (Rose (K.faults sink.old) (K.faults sink.new)) }
    ensures counted { K.faults sink.old ≤ K.faults sink.new }
{
    let mut at = 0;
    'pieces: while at < text.len() {
        let (_, rest) = text.split_at(at);
        let n = sink.write(rest)?;
        if n == 0 {
            return Err(Failed);
        }
        at += n;
    }
    Ok(())
}
