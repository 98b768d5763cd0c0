//! The test of the gate: the two halves of each batch of frames are read at once, and those of each batch of windows
//! are heard at once.
use crate::stream_tests::bytes_of;
use crate::{DecodeSettings, Form, Settings, decode_stream, encode_stream};
use celt_base::memory::{MemSink, MemSource};
use celt_base::outside::Gate;
use celt_base::status::Status;
use std::alloc::{AllocError, Global};
use std::hint::spin_loop;
use std::process::Abort;
use std::sync::atomic::{AtomicBool, AtomicU64, Ordering};
use std::thread::Threads;

/// How often the first half looks whether the second one is there.
const TURNS: u32 = 100_000_000;

/// A page with four packets of one frame.
const FOUR: &str = "\
     4f676753000200000000000000000100000000000000846cd92401134f707573486561640101000080bb0000\
     0000004f6767530000000000000000000001000000010000006bb10adb01144f707573546167730400000063\
     656c74000000004f6767530004000f000000000000010000000200000086d33e280403030303f8fffef8fffe\
     f8fffef8fffe";

/// A page with two packets of 24 frames.
const MANY: &str = "\
     4f676753000200000000000000000100000000000000846cd92401134f707573486561640101000080bb0000\
     0000004f6767530000000000000000000001000000010000006bb10adb01144f707573546167730400000063\
     656c74000000004f676753000480160000000000000100000002000000a53ad28d023232e318fffefffefffe\
     fffefffefffefffefffefffefffefffefffefffefffefffefffefffefffefffefffefffefffefffefffee318\
     fffefffefffefffefffefffefffefffefffefffefffefffefffefffefffefffefffefffefffefffefffefffe\
     fffefffe";

/// The header of a WAV file of one channel and 1920 samples.
const HEADER: &str = "\
     52494646240f000057415645666d74201000000001000100\
     80bb00000077010002001000646174\
     61000f0000";

/// A gate that holds the first half of each batch until the second half has entered.
#[derive(Drop)]
struct Meeting {
    first: AtomicU64,
    second: AtomicU64,
    missed: AtomicBool,
}

/// Whether so many second halves have entered within the turns.
fn is_met(entered: &AtomicU64, count: u64) -> bool {
    for _ in 0..TURNS {
        if entered.load(Ordering::SeqCst) >= count {
            return true;
        }
        spin_loop();
    }
    false
}

impl Gate for Meeting {
    fn enter(&self, half: u32) {
        if half == 1 {
            self.second.fetch_add(1, Ordering::SeqCst);
            return;
        }
        let before = self.first.fetch_add(1, Ordering::SeqCst);
        if !is_met(&self.second, before.saturating_add(1)) {
            self.missed.store(true, Ordering::SeqCst);
        }
    }
}

/// Decodes a stream, and answers how many bytes it gives, how many batches had two halves, and whether one missed
/// the other.
fn met<R: Threads>(
    rt: &R,
    alloc: Global,
    stream: &str,
    form: Form,
) -> Result<(Status, usize, u64, bool), AllocError> {
    let mut pieces = Vec::new(alloc);
    pieces.push(bytes_of(alloc, stream)?)?;
    let mut input = MemSource::new(pieces, Vec::new(alloc));
    let mut output = MemSink::new(alloc, Vec::new(alloc));
    let gate = Meeting {
        first: AtomicU64::new(0),
        second: AtomicU64::new(0),
        missed: AtomicBool::new(false),
    };
    let settings = DecodeSettings { form, invert: true };
    let status = decode_stream(rt, alloc, settings, 1 << 40, &mut input, &mut output, &gate);
    let batches = gate.first.load(Ordering::SeqCst);
    let missed = gate.missed.load(Ordering::SeqCst);
    Ok((status, output.bytes().len(), batches, missed))
}

#[test]
fn halves_meet(rt: HostRuntime) -> Result<(), AllocError> {
    let alloc = rt.alloc();
    let rows: [(&str, Form, usize, u64); 4] = [
        (FOUR, Form::Plain, 7680, 1),
        (FOUR, Form::Ranges, 52, 1),
        (MANY, Form::Plain, 11_520, 3),
        (MANY, Form::Ranges, 662, 3),
    ];
    for (stream, form, len, batches) in rows {
        let got = met(&rt, alloc, stream, form)?;
        assert_eq!(rt; got, (Status::Done, len, batches, false));
    }
    Ok(())
}

/// Encodes a WAV file of 1920 samples, and answers how many bytes it gives, how many batches had two halves, and whether
/// one missed the other.
fn met_encoding<R: Threads>(
    rt: &R,
    alloc: Global,
) -> Result<(Status, usize, u64, bool), AllocError> {
    let mut file = bytes_of(alloc, HEADER)?;
    for place in 0..3840u32 {
        file.push((place % 251) as u8)?;
    }
    let mut pieces = Vec::new(alloc);
    pieces.push(file)?;
    let mut input = MemSource::new(pieces, Vec::new(alloc));
    let mut output = MemSink::new(alloc, Vec::new(alloc));
    let gate = Meeting {
        first: AtomicU64::new(0),
        second: AtomicU64::new(0),
        missed: AtomicBool::new(false),
    };
    let settings = Settings {
        bytes: 40,
        frame: 960,
        band: 3,
        group: 1,
    };
    let status = encode_stream(rt, alloc, settings, 1 << 40, &mut input, &mut output, &gate);
    let batches = gate.first.load(Ordering::SeqCst);
    let missed = gate.missed.load(Ordering::SeqCst);
    Ok((status, output.bytes().len(), batches, missed))
}

// Three frames, of which one batch finds the pitch and another one the rest: two header pages of 47 and 48 bytes, and
// three pages of 69.
#[test]
fn halves_of_windows_meet(rt: HostRuntime) -> Result<(), AllocError> {
    assert_eq!(rt;
        met_encoding(&rt, rt.alloc())?,
        (Status::Done, 302, 2, false)
    );
    Ok(())
}
