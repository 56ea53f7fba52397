//! Lines and entries as text, each as its one spelling.
//!
//! A text is built apart and appended at once, so that want of memory leaves nothing behind.

ghost use Rattle.std.specs.Prelude.{◌≡◌, ◌++◌, OnOk, OnErr};
ghost use Rattle.ch_model.specs.Spelling.{entry_text as entry_text_of, what_text as what_text_of};

use crate::entry_text::put_entry_fields;
use crate::line_text::put_line_fields;
use ch_base::OutOfMemory;
use ch_model::{Entry, Line};

/// Appends the line's canonical text, with its newline. `OutOfMemory` changes nothing.
pub fn put_line(line: &Line, out: &mut Vec<u8>) -> Result<(), OutOfMemory>
    ensures put { OnOk result (out.new.items ≡ out.old.items ++ what_text_of line.now.what) }
    ensures kept { OnErr result (out.new.items ≡ out.old.items) }
{
    let mut text = Vec::new(*out.allocator());
    put_line_fields(&mut text, &line.what)?;
    text.push(b'\n')?;
    out.extend_from_slice(text.as_slice())?;
    Ok(())
}

/// Appends the entry's text, with its newline. `OutOfMemory` changes nothing.
pub fn put_entry(entry: &Entry, out: &mut Vec<u8>) -> Result<(), OutOfMemory>
    ensures put { OnOk result (out.new.items ≡ out.old.items ++ entry_text_of entry.now) }
    ensures kept { OnErr result (out.new.items ≡ out.old.items) }
{
    let mut text = Vec::new(*out.allocator());
    put_entry_fields(&mut text, entry)?;
    text.push(b'\n')?;
    out.extend_from_slice(text.as_slice())?;
    Ok(())
}
