//! Replays a journal: its text is read from standard input, and its log is written to standard
//! output. What went wrong is told in one line on standard error, and in the exit status.
#![tactic(auto)]

use ch_base::{ReaderSource, WriterSink};
use ch_replay::{Status, replay_top};
use std::env;
use std::io::{self, Write};
use std::process::ExitCode;

fn main(rt: HostRuntime) -> ExitCode {
    let status = match words(&rt) {
        Ok(words) => {
            let mut source = ReaderSource::new(rt.stdin());
            let mut sink = WriterSink::new(rt.stdout());
            replay_top(rt.alloc(), words.as_slice(), &mut source, &mut sink)
        }
        Err(_) => Status::OutOfMemory,
    };
    if tell(&rt, &status).is_err() {
        return ExitCode::from(Status::WriteFault.code());
    }
    ExitCode::from(status.code())
}

/// The words after the program's name.
fn words(rt: &HostRuntime) -> io::Result<Vec<String>> {
    let mut words = Vec::new(rt.alloc());
    for word in env::args(rt)?.skip(1) {
        words.push(word)?;
    }
    Ok(words)
}

/// One line on standard error, where the status has one.
fn tell(rt: &HostRuntime, status: &Status) -> io::Result<()> {
    match status.message() {
        None => Ok(()),
        Some(message) => {
            let mut errors = rt.stderr();
            errors.write_all(b"chreplay: ")?;
            errors.write_all(message.as_slice())?;
            errors.write_all(b"\n")
        }
    }
}
