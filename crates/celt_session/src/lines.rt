//! The lines of frames: number, length in bytes and final range.
ghost use Rattle.std.specs.Prelude.{◌≡◌, ◌+◌, ◌*◌, ◌^◌, ◌<◌, ◌≤◌, IfOk, IsTrue, length, take, slice_index, if◌then◌else◌};
ghost use Rattle.celt_base.specs.Ends.{is_band_end, end_of_config};
ghost use Rattle.celt_base.specs.Outside.{HasCause, WritesAll};
ghost use Rattle.frame_symbols.specs.Readings.{range_of};
ghost use Rattle.celt_session.specs.Pages.{Heard, IsGiven};
ghost use Rattle.celt_session.specs.Frames.{is_concealed, kind_of as kind_for, page_frames};
ghost use Rattle.celt_session.specs.FrameBatches.{HasBatchRooms, HoldsReading, IsRead, frames_in};
ghost use Rattle.celt_session.specs.Lines.{line_of, WritesLines};

use crate::frame_batch::{FIRST, FrameBatch, HeldFrame};
use crate::text::{put_byte, put_decimal, put_hex};
use celt_base::kind::Kind;
use celt_base::outside::{Failed, Gate, Sink};
use celt_base::status::OutOfMemory;
use opus_packets::Frames;
use opus_stream::StreamReader;
use std::alloc::Global;
use std::thread::Threads;

/// The longest line.
const LINE_LEN: usize = 64;

/// Writes a line for each frame.
#[derive(Drop)]
pub(crate) struct Lines {
    /// How many pages were worked on.
    pages: u64,
    /// How many frames they have.
    frames: u64,
    /// The room for the frames that are read at once.
    batch: FrameBatch,
    ghost rooms: { HasBatchRooms batch },
}

impl Lines {
    /// Before the first page.
    pub(crate) fn new(alloc: Global) -> Result<Lines, OutOfMemory>
        ensures pages { IfOk result (λ lines. lines.pages ≡ 0) }
        ensures frames { IfOk result (λ lines. lines.frames ≡ 0) }
    {
        match FrameBatch::new(alloc) {
            Ok(batch) => Ok(Lines {
                pages: 0,
                frames: 0,
                batch,
            }),
            Err(_) => Err(OutOfMemory),
        }
    }
}

/// The number of coded bands of a configuration (RFC 6716, section 4.3).
pub(crate) fn end_of(config: u32) -> u8
    ensures value { result ≡ end_of_config config }
    ensures ended { IsTrue (is_band_end result) }
{
    if config < 20 {
        13
    } else if config < 24 {
        17
    } else if config < 28 {
        19
    } else {
        21
    }
}

/// The kind of the frames of an audio packet.
pub(crate) fn kind_of(frames: &Frames) -> Kind
    ensures { result ≡ kind_for (slice_index frames.now.packet 0) }
{
    let config = frames.config();
    Kind {
        lm: (config % 4) as u8,
        channels: 1 + u8::from(frames.stereo()),
        end: end_of(config),
    }
}

/// The final range of a frame; 0 where it is concealed.
fn final_range(frame: HeldFrame) -> u32
    requires { HoldsReading frame.kind frame.bytes.now frame.symbols.now }
    ensures { result ≡ (if is_concealed frame.entry.bytes.now then 0 else range_of frame.entry.kind frame.entry.bytes.now) }
{
    if frame.bytes.len() < 2 {
        return 0;
    }
    frame.symbols.range()
}

/// Puts the line of a frame, and answers its length.
fn put_line(out: &mut [u8; LINE_LEN], number: u64, len: usize, range: u32) -> usize
    requires short { len ≤ 1275 }
    ensures line { take result out.new ≡ line_of number len range }
    ensures bound { result ≤ 64 }
{
    let at = put_decimal(out, 0, number);
    let at = put_byte(out, at, b' ');
    let at = put_decimal(out, at, len as u64);
    let at = put_byte(out, at, b' ');
    let at = put_hex(out, at, 8, range);
    put_byte(out, at, b'\n')
}

/// Writes the line of a frame.
fn write_line<K: Sink>(number: u64, frame: HeldFrame, output: &mut K) -> Result<(), Failed>
    requires short { length frame.bytes.now ≤ 1275 }
    requires read { HoldsReading frame.kind frame.bytes.now frame.symbols.now }
    ensures bytes { WritesAll (K.held output.old) (K.held output.new) result
        (line_of number (length frame.entry.bytes.now) (if is_concealed frame.entry.bytes.now then 0 else range_of frame.entry.kind frame.entry.bytes.now)) }
    ensures cause { HasCause (K.faults output.old) (K.faults output.new) result }
{
    let range = final_range(frame);
    let mut line = [0; LINE_LEN];
    let len = put_line(&mut line, number, frame.bytes.len(), range);
    let (text, _) = line.split_at(len);
    output.write_all(text)
}

/// Writes the lines of the frames of a batch, the first of which has this number, and answers the number behind
/// them.
fn write_batch<K: Sink>(first: u64, batch: &FrameBatch, output: &mut K) -> Result<u64, Failed>
    requires few { first < 2 ^ 60 }
    requires rooms { HasBatchRooms batch.now }
    requires read { IsRead batch.now }
    ensures lines { WritesLines first (frames_in batch.now) (K.held output.old) (K.held output.new) result }
    ensures cause { HasCause (K.faults output.old) (K.faults output.new) result }
    ensures few { IfOk result (λ next. next ≡ first + batch.now.count) }
{
    for i in 0..batch.len() {
        let number = first + i as u64;
        let Ok(()) = write_line(number, batch.frame(i), output) else {
            return Err(Failed);
        };
    }
    Ok(first + batch.len() as u64)
}

/// Writes the lines of the frames of the page that was given last, batch by batch, and answers the number behind
/// them.
fn write_page<R: Threads, K: Sink, G: Gate>(
    rt: &R,
    first: u64,
    reader: &StreamReader,
    batch: &mut FrameBatch,
    output: &mut K,
    gate: &G,
) -> Result<u64, Failed>
    requires few { first < 2 ^ 59 }
    requires rooms { HasBatchRooms batch.old }
    ensures rooms { HasBatchRooms batch.new }
    ensures lines { (heard : Heard) → IsGiven reader.now heard →
        WritesLines first (page_frames heard.packets) (K.held output.old) (K.held output.new) result }
    ensures cause { HasCause (K.faults output.old) (K.faults output.new) result }
    ensures few { IfOk result (λ next. next ≤ first + 12240) }
{
    let mut number = first;
    let mut place = FIRST;
    'batches: loop {
        place = batch.fill(rt, reader, place, gate);
        if batch.len() == 0 {
            return Ok(number);
        }
        number = match write_batch(number, batch, output) {
            Ok(next) => next,
            Err(_) => return Err(Failed),
        };
    }
}

impl Lines {
    ghost use Rattle.celt_session.specs.Works.{Worked};
    ghost use Rattle.celt_session.specs.Decoding.{lines};
    ghost use Rattle.celt_session.specs.PageWorks.{lines_work, ShowsLines, pages_of};

    /// Writes the lines of the frames of the page that was given last.
    pub(crate) fn page<R: Threads, K: Sink, G: Gate>(
        &mut self,
        rt: &R,
        reader: &StreamReader,
        output: &mut K,
        gate: &G,
    ) -> Result<(), Failed>
        requires few { pages_of self.old < 2 ^ 40 }
        ensures works { (s : lines.State) (heard : Heard) → ShowsLines self.old s → IsGiven reader.now heard →
            Worked lines_work s heard self.new (K.held output.old) (K.held output.new) result }
        ensures cause { HasCause (K.faults output.old) (K.faults output.new) result }
        ensures count { pages_of self.new ≤ pages_of self.old + 1 }
    {
        match write_page(rt, self.frames, reader, &mut self.batch, output, gate) {
            Ok(frames) => {
                self.frames = frames;
                self.pages += 1;
                Ok(())
            }
            Err(_) => Err(Failed),
        }
    }
}
