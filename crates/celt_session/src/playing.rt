//! Playing of frames: each is read and sounds, or is concealed, and those of its samples that are written are.
ghost use Rattle.std.specs.Prelude.{◌≡◌, ◌+◌, ◌-◌, ◌*◌, ◌^◌, ◌<◌, ◌≤◌, ◌⊎◌, [], ◌∷◌, length, min, unsigned_abs, if◌then◌else◌};
ghost use Rattle.std.specs.List.{slice_range};
ghost use Rattle.celt_base.specs.Outside.{HasCause, WritesAll};
ghost use Rattle.celt_session.specs.Pages.{Heard, IsGiven};
ghost use Rattle.celt_session.specs.Frames.{framed, page_frames};
ghost use Rattle.celt_session.specs.FrameBatches.{HasBatchRooms, HoldsReading, IsRead, frames_in};
ghost use Rattle.wav_edge.specs.Samples.{bytes_of};
ghost use Rattle.celt_synth.specs.Decoders.{with_state};
ghost use Rattle.wav_edge.specs.Spellings.{header};
ghost use Rattle.celt_session.specs.Samples.{channels_in, gain_in};
ghost use Rattle.celt_session.specs.Playing.{IsPlaying, Plays, played_by, playing_in, target_for};

use crate::frame_batch::{FIRST, FrameBatch, HeldFrame};
use celt_base::outside::{Failed, Gate, Sink};
use celt_synth::Decoder;
use opus_packets::Head;
use opus_stream::{Span, StreamReader};
use std::thread::Threads;
use wav_edge::samples::from_samples;
use wav_edge::written::write_header;

/// The most samples of a frame, of all its channels.
const FRAME_LEN: u64 = 1920;

/// How frames are played.
#[derive(Clone, Copy)]
pub(crate) struct Playing {
    /// The channels of the stream.
    pub(crate) channels: u8,
    /// The header's output gain, in units of 1/256 dB.
    pub(crate) gain: i32,
    /// Of the samples per channel from the first of the frames on, those that are written.
    pub(crate) span: Span,
}

/// Where this sample per channel stands among so many samples of all channels, at most their end.
fn place_of(channels: u8, sample: u64, len: usize) -> usize
    requires channels { (channels ≡ 1) ⊎ (channels ≡ 2) }
    requires len { len ≤ 1920 }
    ensures { result ≡ min (channels * sample) len }
{
    (sample.min(FRAME_LEN) * u64::from(channels)).min(len as u64) as usize
}

/// Writes of the samples of a frame, channels interleaved, those of the span.
fn write_cut<K: Sink>(
    samples: &[i16],
    channels: u8,
    span: Span,
    output: &mut K,
) -> Result<(), Failed>
    requires channels { (channels ≡ 1) ⊎ (channels ≡ 2) }
    requires len { length samples.now ≤ 1920 }
    ensures bytes { WritesAll (K.held output.old) (K.held output.new) result
        (bytes_of (slice_range samples.now (channels * span.from) (channels * span.to))) }
    ensures cause { HasCause (K.faults output.old) (K.faults output.new) result }
{
    let from = place_of(channels, span.from, samples.len());
    let to = place_of(channels, span.to, samples.len());
    if to <= from {
        return Ok(());
    }
    let cut = &samples[from..to];
    let mut room = [0u8; 3840];
    let (bytes, _) = room.split_at_mut(2 * cut.len());
    from_samples(cut, bytes);
    output.write_all(bytes)
}

/// The span behind so many samples per channel.
fn span_behind(span: Span, count: u64) -> Span
    ensures { result ≡ record { from = span.from - count; to = span.to - count } }
{
    Span {
        from: span.from.saturating_sub(count),
        to: span.to.saturating_sub(count),
    }
}

/// The frame step: a frame of 2 bytes or more sounds as it was read, a shorter one is concealed.
fn play_frame(decoder: &mut Decoder, frame: HeldFrame, gain: i32, out: &mut [i16])
    requires read { HoldsReading frame.kind frame.bytes.now frame.symbols.now }
    requires gain { unsigned_abs gain ≤ 32768 }
    requires out { length out.old ≡ 120 * 2 ^ frame.kind.lm * decoder.old.channels }
    ensures state { decoder.new ≡ with_state decoder.old (played_by decoder.old frame.entry.kind frame.entry.bytes.now gain).state }
    ensures samples { out.new ≡ (played_by decoder.old frame.entry.kind frame.entry.bytes.now gain).samples }
{
    if frame.bytes.len() < 2 {
        return decoder.conceal(frame.kind, gain, out);
    }
    decoder.frame(frame.kind, frame.symbols, gain, out);
}

/// Plays a frame, and answers the span that is left behind it.
fn write_frame<K: Sink>(
    decoder: &mut Decoder,
    frame: HeldFrame,
    playing: Playing,
    output: &mut K,
) -> Result<Span, Failed>
    requires read { HoldsReading frame.kind frame.bytes.now frame.symbols.now }
    requires playing { IsPlaying decoder.old playing }
    ensures same { decoder.new ≡ with_state decoder.old decoder.new.state }
    ensures plays { Plays decoder.old (target_for decoder.old playing) (framed frame.entry.kind frame.entry.bytes.now ∷ []) playing.span
        decoder.new (K.held output.old) (K.held output.new) result }
    ensures cause { HasCause (K.faults output.old) (K.faults output.new) result }
{
    let count = 120 << frame.kind.lm;
    let mut room = [0i16; 1920];
    let (samples, _) = room.split_at_mut(count * usize::from(playing.channels));
    play_frame(decoder, frame, playing.gain, samples);
    match write_cut(samples, playing.channels, playing.span, output) {
        Ok(()) => Ok(span_behind(playing.span, count as u64)),
        Err(_) => Err(Failed),
    }
}

/// Plays the frames of a batch in order, and answers the span that is left behind them.
fn write_batch<K: Sink>(
    decoder: &mut Decoder,
    batch: &FrameBatch,
    playing: Playing,
    output: &mut K,
) -> Result<Span, Failed>
    requires rooms { HasBatchRooms batch.now }
    requires read { IsRead batch.now }
    requires playing { IsPlaying decoder.old playing }
    ensures same { decoder.new ≡ with_state decoder.old decoder.new.state }
    ensures plays { Plays decoder.old (target_for decoder.old playing) (frames_in batch.now) playing.span
        decoder.new (K.held output.old) (K.held output.new) result }
    ensures cause { HasCause (K.faults output.old) (K.faults output.new) result }
{
    let mut span = playing.span;
    for i in 0..batch.len() {
        let now = Playing { span, ..playing };
        span = match write_frame(decoder, batch.frame(i), now, output) {
            Ok(next) => next,
            Err(_) => return Err(Failed),
        };
    }
    Ok(span)
}

/// Plays the frames of the page that was given last, batch by batch.
pub(crate) fn write_page<R: Threads, K: Sink, G: Gate>(
    rt: &R,
    decoder: &mut Decoder,
    reader: &StreamReader,
    batch: &mut FrameBatch,
    output: &mut K,
    gate: &G,
) -> Result<Span, Failed>
    requires rooms { HasBatchRooms batch.old }
    requires playing { IsPlaying decoder.old (playing_in reader.now) }
    ensures rooms { HasBatchRooms batch.new }
    ensures same { decoder.new ≡ with_state decoder.old decoder.new.state }
    ensures plays { (heard : Heard) → IsGiven reader.now heard →
        Plays decoder.old (target_for decoder.old (playing_in reader.now)) (page_frames heard.packets) (playing_in reader.now).span
        decoder.new (K.held output.old) (K.held output.new) result }
    ensures cause { HasCause (K.faults output.old) (K.faults output.new) result }
{
    let playing = playing_of(reader);
    let mut span = playing.span;
    let mut place = FIRST;
    'batches: loop {
        place = batch.fill(rt, reader, place, gate);
        if batch.len() == 0 {
            return Ok(span);
        }
        let now = Playing { span, ..playing };
        span = match write_batch(decoder, batch, now, output) {
            Ok(next) => next,
            Err(_) => return Err(Failed),
        };
    }
}

/// The number of channels of the stream.
fn channels_of(head: Option<Head>) -> u8
    ensures value { result ≡ channels_in head }
    ensures one_or_two { (result ≡ 1) ⊎ (result ≡ 2) }
{
    match head {
        Some(head) if head.channels == 2 => 2,
        _ => 1,
    }
}

/// The output gain of the stream, in units of 1/256 dB.
fn gain_of(head: Option<Head>) -> i32
    ensures value { result ≡ gain_in head }
    ensures size { unsigned_abs result ≤ 32768 }
{
    match head {
        Some(head) => i32::from(head.gain),
        None => 0,
    }
}

/// How the frames of the page that was given last are played.
pub(crate) fn playing_of(reader: &StreamReader) -> Playing
    ensures is { result ≡ playing_in reader.now }
    ensures value { (heard : Heard) → IsGiven reader.now heard →
        result ≡ record { channels = channels_in heard.head; gain = gain_in heard.head; span = heard.span } }
    ensures one_or_two { (result.channels ≡ 1) ⊎ (result.channels ≡ 2) }
    ensures gain { unsigned_abs result.gain ≤ 32768 }
{
    Playing {
        channels: channels_of(reader.head()),
        gain: gain_of(reader.head()),
        span: reader.written(),
    }
}

/// Writes the WAV header where it is awaited.
pub(crate) fn write_opening<K: Sink>(
    awaits_header: bool,
    channels: u8,
    output: &mut K,
) -> Result<(), Failed>
    ensures bytes { WritesAll (K.held output.old) (K.held output.new) result (if awaits_header then header channels else []) }
    ensures cause { HasCause (K.faults output.old) (K.faults output.new) result }
{
    if !awaits_header {
        return Ok(());
    }
    let mut bytes = [0; 44];
    write_header(channels, &mut bytes);
    output.write_all(&bytes)
}
