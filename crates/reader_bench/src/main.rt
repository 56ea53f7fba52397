//! Feeds a reader with frames of one size in pieces of one size, to time it.
//!
//! Its words are the bytes of a frame (8 to 65,544), the bytes of a piece, how many KiB of frames are
//! made, and how often these are fed.
#![tactic(auto)]

ghost use Rattle.std.specs.Prelude.{◌≤◌, ◌+◌, ◌<◌, length, IfOk};

use anyhow::{Context, Error, Result, anyhow, ensure};
use ch_base::{OutOfMemory, Text};
use ch_reader::{Item, Reader, Role};
use ch_wire::{Frame, put_frame};
use std::alloc::Global;
use std::env;

/// What was handed out.
#[derive(Drop)]
struct Counts {
    frames: u64,
    bytes: u64,
}

/// Why a run stops.
#[derive(Clone, Copy, Debug)]
enum Trouble {
    OutOfMemory,
    Refused,
    NothingTaken,
}

fn stopped(trouble: Trouble) -> Error {
    anyhow!("{trouble:?}")
}

fn no_memory(_e: OutOfMemory) -> Trouble {
    Trouble::OutOfMemory
}

fn number(word: Option<String>) -> Result<usize> {
    let word = word.context("four numbers are needed")?;
    word.as_str().parse::<usize>().context("not a number")
}

/// Frames of this size, at least so many bytes in all.
fn block(alloc: Global, frame: usize, size: usize) -> Result<Vec<u8>>
    requires low { 8 ≤ frame }
    requires high { frame ≤ 65544 }
{
    let mut payload = Vec::new(alloc);
    for _ in 8..frame {
        payload.push(7)?;
    }
    ensure!(payload.len() <= 65_536, "a payload is too long");
    let frame = Frame::Data(1024, Text::from_vec(payload));
    let mut one = Vec::new(alloc);
    put_frame(&frame, &mut one)
        .map_err(no_memory)
        .map_err(stopped)?;
    let mut all = Vec::new(alloc);
    all.extend_from_slice(one.as_slice())?;
    for _ in 0..size {
        if all.len() >= size {
            break;
        }
        all.extend_from_slice(one.as_slice())?;
    }
    Ok(all)
}

/// Feeds a piece and takes each item that is whole.
fn drain(reader: &mut Reader, piece: &[u8], counts: &mut Counts) -> Result<(), Trouble> {
    let mut done = 0;
    for _ in 0..=piece.len() {
        if done >= piece.len() {
            return Ok(());
        }
        done += reader.feed(&piece[done..]).map_err(no_memory)?;
        match reader.take() {
            Ok(None) => {}
            Ok(Some(item)) => count(counts, &item),
            Err(_) => return Err(Trouble::Refused),
        }
    }
    Err(Trouble::NothingTaken)
}

/// Feeds a block in pieces of this size.
fn feed_all(
    reader: &mut Reader,
    block: &[u8],
    piece: usize,
    counts: &mut Counts,
) -> Result<(), Trouble>
    requires { 1 ≤ piece }
{
    for part in block.chunks(piece) {
        drain(reader, part, counts)?;
    }
    Ok(())
}

fn count(counts: &mut Counts, item: &Item) {
    if let Item::Frame(Frame::Data(_, payload)) = item {
        counts.frames = counts.frames.wrapping_add(1);
        counts.bytes = counts.bytes.wrapping_add(payload.len() as u64);
    }
}

fn main(rt: HostRuntime) -> Result<()> {
    let mut words = env::args(&rt)?;
    let _program = words.next();
    let frame = number(words.next())?;
    let piece = number(words.next())?;
    let size = number(words.next())?.saturating_mul(1024);
    let times = number(words.next())?;
    ensure!(
        frame >= 8 && frame <= 65_544,
        "a frame has 8 to 65,544 bytes"
    );
    ensure!(piece > 0, "a piece has a byte at least");
    let block = block(rt.alloc(), frame, size)?;
    let mut reader = Reader::new(rt.alloc(), Role::Opener)
        .map_err(no_memory)
        .map_err(stopped)?;
    let mut counts = Counts {
        frames: 0,
        bytes: 0,
    };
    drain(&mut reader, b"\0\0\0\0", &mut counts).map_err(stopped)?;
    let mut fed = 0usize;
    for _ in 0..times {
        feed_all(&mut reader, block.as_slice(), piece, &mut counts).map_err(stopped)?;
        fed = fed.saturating_add(block.len());
    }
    let frames = counts.frames;
    let bytes = counts.bytes;
    println!(rt; "{fed} bytes fed, {frames} payloads of {bytes} bytes in all")?;
    Ok(())
}
