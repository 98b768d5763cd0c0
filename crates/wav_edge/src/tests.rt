//! Rows: what headers give, byte for byte, and samples. RIFF WAVE files as common tools write them and with
//! one thing wrong each.
ghost use Rattle.std.specs.Prelude.{◌<◌, ◌^◌, length};

use crate::reader::{Header, HeaderReader};
use crate::samples::{from_samples, to_samples};
use crate::written::write_header;
use celt_base::status::{Fault, FaultName};

/// What a file gives.
#[derive(Clone, Copy, Debug, PartialEq, Eq)]
enum Told {
    /// Channels, rate and size of the samples, and the byte where they begin.
    Samples(u8, u32, Option<u64>, usize),
    /// The first fault and its byte, that of the end included.
    Refused(FaultName, u64),
}

/// What a file gives whose bytes come in pieces of `step`.
fn read_in_pieces(bytes: &[u8], step: u8) -> Told
    requires some { 0 < step }
    requires short { length bytes.now < 2 ^ 16 }
{
    let mut reader = HeaderReader::new();
    let mut next = 0;
    while next < bytes.len() {
        let end = (next + step as usize).min(bytes.len());
        match reader.feed(&bytes[next..end]) {
            Header::Need => {}
            Header::Data {
                channels,
                rate,
                size,
                used,
            } => return Told::Samples(channels, rate, size, next + used),
            Header::Fault(fault) => return Told::Refused(fault.name, fault.at),
        }
        next = end;
    }
    let fault = reader.end();
    Told::Refused(fault.name, fault.at)
}

// Each row: the beginning of a file, and what it gives, whatever the size of the pieces.
#[rattlefmt::skip]
const ROWS: &[(&str, &[u8], Told)] = &[
    ("no byte", b"",
        Told::Refused(FaultName::DataTruncated, 0)),
    ("wrong first letter", b"Rx",
        Told::Refused(FaultName::BadRiff, 0)),
    ("wrong form", b"RIFF\xff\xff\xff\xffA",
        Told::Refused(FaultName::BadRiff, 8)),
    ("odd chunk before", b"RIFF\0\0\0\0WAVELIST\x05\0\0\0abcde\0fmt \x10\0\0\0\x01\0\x01\0\x80\xbb\0\0\0\x77\x01\0\x02\0\x10\0data\x04\0\0\0\0\0\0\0",
        Told::Samples(1, 48_000, Some(4), 58)),
    ("odd chunk after", b"RIFF\0\0\0\0WAVEfmt \x10\0\0\0\x01\0\x02\0\x80\xbb\0\0\0\xee\x02\0\x04\0\x10\0LIST\x05\0\0\0abcde\0data\x08\0\0\0\0",
        Told::Samples(2, 48_000, Some(8), 58)),
    ("odd chunk without padding", b"RIFF\0\0\0\0WAVEfmt \x10\0\0\0\x01\0\x01\0\x80\xbb\0\0\0\x77\x01\0\x02\0\x10\0LIST\x05\0\0\0abcde",
        Told::Refused(FaultName::DataTruncated, 49)),
    ("end behind a chunk", b"RIFF\0\0\0\0WAVEfmt \x10\0\0\0\x01\0\x01\0\x80\xbb\0\0\0\x77\x01\0\x02\0\x10\0LIST\x05\0\0\0abcde\0",
        Told::Refused(FaultName::NoData, 50)),
    ("empty chunk", b"RIFF\0\0\0\0WAVEjunk\0\0\0\0fmt \x10\0\0\0\x01\0\x01\0\x80\xbb\0\0\0\x77\x01\0\x02\0\x10\0data\x02\0\0\0",
        Told::Samples(1, 48_000, Some(2), 52)),
    ("no sample", b"RIFF\0\0\0\0WAVEfmt \x10\0\0\0\x01\0\x02\0\x80\xbb\0\0\0\xee\x02\0\x04\0\x10\0data\0\0\0\0",
        Told::Samples(2, 48_000, Some(0), 44)),
    ("up to the end", b"RIFF\0\0\0\0WAVEfmt \x10\0\0\0\x01\0\x01\0\x80\xbb\0\0\0\x77\x01\0\x02\0\x10\0data\xff\xff\xff\xff\0",
        Told::Samples(1, 48_000, None, 44)),
    ("greatest signed size, mono", b"RIFF\0\0\0\0WAVEfmt \x10\0\0\0\x01\0\x01\0\x80\xbb\0\0\0\x77\x01\0\x02\0\x10\0data\xff\xff\xff\x7f",
        Told::Refused(FaultName::BadRiff, 40)),
    ("large even size", b"RIFF\0\0\0\0WAVEfmt \x10\0\0\0\x01\0\x02\0\x80\xbb\0\0\0\xee\x02\0\x04\0\x10\0data\0\xf0\xff\x7f",
        Told::Samples(2, 48_000, Some(0x7FFF_F000), 44)),
    ("larger unit", b"RIFF\0\0\0\0WAVEfmt \x10\0\0\0\x01\0\x02\0\x80\xbb\0\0\0\xee\x02\0\x04\0\x10\0data\0\0\xff\x7f",
        Told::Samples(2, 48_000, Some(0x7FFF_0000), 44)),
    ("half a sample", b"RIFF\0\0\0\0WAVEfmt \x10\0\0\0\x01\0\x01\0\x80\xbb\0\0\0\x77\x01\0\x02\0\x10\0data\x03\0\0\0",
        Told::Refused(FaultName::BadRiff, 40)),
    ("half a group", b"RIFF\0\0\0\0WAVEfmt \x10\0\0\0\x01\0\x02\0\x80\xbb\0\0\0\xee\x02\0\x04\0\x10\0data\x06\0\0\0",
        Told::Refused(FaultName::BadRiff, 40)),
    ("letters of data alone", b"RIFF\0\0\0\0WAVEfmt \x10\0\0\0\x01\0\x01\0\x80\xbb\0\0\0\x77\x01\0\x02\0\x10\0data\x04\0\0",
        Told::Refused(FaultName::DataTruncated, 43)),
    ("data first", b"RIFF\0\0\0\0WAVEdata",
        Told::Refused(FaultName::BadRiff, 12)),
    ("second format", b"RIFF\0\0\0\0WAVELIST\x05\0\0\0abcde\0fmt \x10\0\0\0\x01\0\x01\0\x80\xbb\0\0\0\x77\x01\0\x02\0\x10\0fmt ",
        Told::Refused(FaultName::BadRiff, 50)),
    ("format of 14 bytes", b"RIFF\0\0\0\0WAVEfmt \x0e\0\0\0",
        Told::Refused(FaultName::BadRiff, 16)),
    ("format of 18 bytes", b"RIFF\0\0\0\0WAVEfmt \x12\0\0\0\x01\0\x01\0\x80\xbb\0\0\0\x77\x01\0\x02\0\x10\0\0\0data\x02\0\0\0",
        Told::Samples(1, 48_000, Some(2), 46)),
    ("format of 39 bytes", b"RIFF\0\0\0\0WAVEfmt \x27\0\0\0\x01\0\x01\0\x80\xbb\0\0\0\x77\x01\0\x02\0\x10\0\0\0\0\0\0\0\0\0\0\0\0\0\0\0\0\0\0\0\0\0\0\0\0\0data\x02\0\0\0",
        Told::Samples(1, 48_000, Some(2), 68)),
    ("format of 40 bytes", b"RIFF\0\0\0\0WAVEfmt \x28\0\0\0\x01\0\x01\0\x80\xbb\0\0\0\x77\x01\0\x02\0\x10\0\0\0\0\0\0\0\0\0\0\0\0\0\0\0\0\0\0\0\0\0\0\0\0\0data\x02\0\0\0",
        Told::Samples(1, 48_000, Some(2), 68)),
    ("short extensible format", b"RIFF\0\0\0\0WAVEfmt \x27\0\0\0\xfe\xff",
        Told::Refused(FaultName::BadRiff, 16)),
    ("extensible format", b"RIFF\0\0\0\0WAVEfmt \x28\0\0\0\xfe\xff\x01\0\x80\xbb\0\0\0\x77\x01\0\x02\0\x10\0\x16\0\x10\0\x04\0\0\0\x01\0\0\0\0\0\x10\0\x80\0\0\xaa\0\x38\x9b\x71data\x02\0\0\0",
        Told::Samples(1, 48_000, Some(2), 68)),
    ("other sub-format", b"RIFF\0\0\0\0WAVEfmt \x28\0\0\0\xfe\xff\x01\0\x80\xbb\0\0\0\x77\x01\0\x02\0\x10\0\x16\0\x10\0\x04\0\0\0\x03\0",
        Told::Refused(FaultName::UnsupportedFormat { codec: 0xFFFE, bits: 16, channels: 1, rate: 48_000 }, 12)),
    ("sub-format cut", b"RIFF\0\0\0\0WAVEfmt \x28\0\0\0\xfe\xff\x01\0\x80\xbb\0\0\0\x77\x01\0\x02\0\x10\0\x16\0\x10\0\x04\0\0\0\x03",
        Told::Refused(FaultName::DataTruncated, 45)),
    ("44100 Hz", b"RIFF\0\0\0\0WAVEfmt \x10\0\0\0\x01\0\x02\0\x44\xac\0\0\x10\xb1\x02\0\x04\0\x10\0",
        Told::Refused(FaultName::UnsupportedFormat { codec: 1, bits: 16, channels: 2, rate: 44_100 }, 12)),
    ("float", b"RIFF\0\0\0\0WAVEfmt \x10\0\0\0\x03\0\x01\0\x80\xbb\0\0\0\xee\x02\0\x04\0\x20\0",
        Told::Refused(FaultName::UnsupportedFormat { codec: 3, bits: 32, channels: 1, rate: 48_000 }, 12)),
    ("24 bits", b"RIFF\0\0\0\0WAVEfmt \x10\0\0\0\x01\0\x01\0\x80\xbb\0\0\x80\x32\x02\0\x03\0\x18\0",
        Told::Refused(FaultName::UnsupportedFormat { codec: 1, bits: 24, channels: 1, rate: 48_000 }, 12)),
    ("three channels", b"RIFF\0\0\0\0WAVEfmt \x10\0\0\0\x01\0\x03\0\x80\xbb\0\0\x80\x65\x04\0\x06\0\x10\0",
        Told::Refused(FaultName::UnsupportedFormat { codec: 1, bits: 16, channels: 3, rate: 48_000 }, 12)),
];

#[test]
fn headers(rt: HostRuntime) {
    for (name, bytes, want) in ROWS {
        assert!(rt; bytes.len() < 1000);
        for step in [1, 2, 3, 255] {
            assert_eq!(rt; read_in_pieces(bytes, step), *want, "at {name} by {step}");
        }
    }
}

// Every beginning of a header that was written: it is between two parts behind 12 and 36 bytes alone.
#[test]
fn beginnings(rt: HostRuntime) {
    let mut header = [0u8; 44];
    write_header(2, &mut header);
    assert_eq!(rt;
        header,
        *b"RIFF\xff\xff\xff\xffWAVEfmt \x10\0\0\0\x01\0\x02\0\x80\xbb\0\0\0\xee\x02\0\x04\0\x10\0data\xff\xff\xff\xff"
    );
    for step in [1, 2, 3, 255] {
        for n in 0..44usize {
            let name = if n == 12 || n == 36 {
                FaultName::NoData
            } else {
                FaultName::DataTruncated
            };
            assert_eq!(rt;
                read_in_pieces(&header[..n], step),
                Told::Refused(name, n as u64),
                "at {n} by {step}"
            );
        }
        assert_eq!(rt;
            read_in_pieces(&header, step),
            Told::Samples(2, 48_000, None, 44)
        );
    }
}

// A fault is answered again, also to an empty piece.
#[test]
fn fault_again(rt: HostRuntime) {
    let fault = Header::Fault(Fault {
        name: FaultName::BadRiff,
        at: 0,
    });
    let mut reader = HeaderReader::new();
    assert_eq!(rt; reader.feed(b""), Header::Need);
    assert_eq!(rt; reader.feed(b"RIFX"), fault);
    assert_eq!(rt; reader.feed(b""), fault);
}

#[test]
fn samples_and_bytes(rt: HostRuntime) {
    let samples = [0i16, 32767, -32768, 0x1234, -2];
    let bytes = [0u8, 0, 0xFF, 0x7F, 0, 0x80, 0x34, 0x12, 0xFE, 0xFF];
    let mut told = [0i16; 5];
    to_samples(&bytes, &mut told);
    assert_eq!(rt; told, samples);
    let mut room = [0u8; 10];
    from_samples(&samples, &mut room);
    assert_eq!(rt; room, bytes);
}
