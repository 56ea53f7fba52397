//! Words, and bytes behind a word that counts them.

ghost use Rattle.std.specs.Prelude.{◌≡◌, ◌<◌, ◌^◌, ◌++◌, length, OnOk, OnErr};
ghost use Rattle.ch_wire.specs.Words.{word, counted};

use ch_base::OutOfMemory;

/// Appends one word, or leaves the vector as it was.
pub(crate) fn put_word(first: u32, out: &mut Vec<u8>) -> Result<(), OutOfMemory>
    ensures ok { OnOk result (out.new.items ≡ out.old.items ++ word first) }
    ensures err { OnErr result (out.new.items ≡ out.old.items) }
{
    out.extend_from_slice(&first.to_be_bytes())?;
    Ok(())
}

/// Appends two words, or leaves the vector as it was.
pub(crate) fn put_words(first: u32, second: u32, out: &mut Vec<u8>) -> Result<(), OutOfMemory>
    ensures ok { OnOk result (out.new.items ≡ out.old.items ++ (word first ++ word second)) }
    ensures err { OnErr result (out.new.items ≡ out.old.items) }
{
    out.reserve(8)?;
    out.extend_from_slice(&first.to_be_bytes())?;
    out.extend_from_slice(&second.to_be_bytes())?;
    Ok(())
}

/// Appends a word, the number of these bytes as a word, and the bytes, or leaves the vector as it
/// was.
pub(crate) fn put_counted(first: u32, bytes: &[u8], out: &mut Vec<u8>) -> Result<(), OutOfMemory>
    requires { length bytes.now < 2 ^ 32 }
    ensures ok { OnOk result (out.new.items ≡ out.old.items ++ counted first bytes.now) }
    ensures err { OnErr result (out.new.items ≡ out.old.items) }
{
    out.reserve(8 + bytes.len())?;
    out.extend_from_slice(&first.to_be_bytes())?;
    out.extend_from_slice(&(bytes.len() as u32).to_be_bytes())?;
    out.extend_from_slice(bytes)?;
    Ok(())
}
