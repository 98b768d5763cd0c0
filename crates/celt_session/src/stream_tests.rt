//! Rows of small streams, in pieces of several sizes. The streams were made, and what they give computed, by a
//! program apart from this one.
use crate::{DecodeSettings, Form, decode_stream};
use celt_base::memory::{MemSink, MemSource};
use celt_base::outside::NoGate;
use celt_base::status::{Fault, FaultName, Status};
use std::alloc::{AllocError, Global};
use std::process::Abort;
use std::thread::Threads;

/// What a stream gives: its bytes in hexadecimal, its fault with the number of its place, and for a WAV file, for
/// samples alone, for samples without phase inversion, and for lines, how many bytes these are and a sum over them.
#[derive(Clone, Copy)]
pub(crate) struct Row {
    pub name: &'static str,
    pub stream: &'static str,
    pub fault: Option<(FaultName, u64)>,
    pub outputs: [(usize, u64); 4],
}

/// What a stream is decoded into, in the order of a row's outputs.
pub(crate) const SETTINGS: [DecodeSettings; 4] = [
    DecodeSettings {
        form: Form::Wav,
        invert: true,
    },
    DecodeSettings {
        form: Form::Plain,
        invert: true,
    },
    DecodeSettings {
        form: Form::Plain,
        invert: false,
    },
    DecodeSettings {
        form: Form::Ranges,
        invert: true,
    },
];

const ROWS: [Row; 21] = [
    Row {
        name: "a silent frame",
        stream: "4f676753000200000000000000000100000000000000846cd92401134f707573486561640101000080bb0000\
         0000004f6767530000000000000000000001000000010000006bb10adb01144f707573546167730400000063\
         656c74000000004f6767530004c00300000000000001000000020000002993b0dd0103f8fffe",
        fault: None,
        outputs: [
            (1964, 17194348320455522634),
            (1920, 0),
            (1920, 0),
            (13, 12076875736001363015),
        ],
    },
    Row {
        name: "packets of two frames, of all forms",
        stream: "4f676753000200000000000000000100000000000000846cd92401134f707573486561640101000080bb0000\
         0000004f6767530000000000000000000001000000010000006bb10adb01144f707573546167730400000063\
         656c74000000004f67675300048016000000000000010000000200000032c8b7e803050607f9fffefffefa02\
         fffefffefb8202fffefffe",
        fault: None,
        outputs: [
            (11564, 13683300300598682954),
            (11520, 0),
            (11520, 0),
            (78, 10404331041676774983),
        ],
    },
    Row {
        name: "padding",
        stream: "4f676753000200000000000000000100000000000000846cd92401134f707573486561640101000080bb0000\
         0000004f6767530000000000000000000001000000010000006bb10adb01144f707573546167730400000063\
         656c74000000004f6767530004c00300000000000001000000020000008064d5bd0106fb4101fffe00",
        fault: None,
        outputs: [
            (1964, 17194348320455522634),
            (1920, 0),
            (1920, 0),
            (13, 12076875736001363015),
        ],
    },
    Row {
        name: "a base and a cut end",
        stream: "4f676753000200000000000000000100000000000000846cd92401134f707573486561640101000080bb0000\
         0000004f6767530000000000000000000001000000010000006bb10adb01144f707573546167730400000063\
         656c74000000004f676753000010270000000000000100000002000000a9541fd30103f8fffe4f6767530004\
         04290000000000000100000003000000818bd32f0103f8fffe",
        fault: None,
        outputs: [
            (2964, 10935240235164515466),
            (2920, 0),
            (2920, 0),
            (26, 7728513430514439549),
        ],
    },
    Row {
        name: "a first page that begins late",
        stream: "4f676753000200000000000000000100000000000000846cd92401134f707573486561640101000080bb0000\
         0000004f6767530000000000000000000001000000010000006bb10adb01144f707573546167730400000063\
         656c74000000004f6767530004f4010000000000000100000002000000abb106790103f8fffe",
        fault: None,
        outputs: [
            (1044, 2893630442388553866),
            (1000, 0),
            (1000, 0),
            (13, 12076875736001363015),
        ],
    },
    Row {
        name: "a packet of another mode",
        stream: "4f676753000200000000000000000100000000000000846cd92401134f707573486561640101000080bb0000\
         0000004f6767530000000000000000000001000000010000006bb10adb01144f707573546167730400000063\
         656c74000000004f6767530000c0030000000000000100000002000000d838bd500103f8fffe4f6767530000\
         80070000000000000100000003000000ab63025c0103f8fffe4f6767530004400b0000000000000100000004\
         000000ea053bd9010300fffe",
        fault: Some((FaultName::NotCelt { config: 0 }, 2)),
        outputs: [
            (3884, 10483947137349530954),
            (3840, 0),
            (3840, 0),
            (26, 7728513430514439549),
        ],
    },
    Row {
        name: "a checksum",
        stream: "4f676753000200000000000000000100000000000000846cd92401134f707573486561640101000080bb0000\
         0000004f6767530000000000000000000001000000010000006bb10adb01144f707573546167730400000063\
         656c74000000004f6767530000c0030000000000000100000002000000d838bd500103f8fffe4f6767530004\
         800700000000000001000000030000005bc80fd10103f8fffe",
        fault: Some((FaultName::BadChecksum, 3)),
        outputs: [
            (1964, 17194348320455522634),
            (1920, 0),
            (1920, 0),
            (13, 12076875736001363015),
        ],
    },
    Row {
        name: "a cut page",
        stream: "4f676753000200000000000000000100000000000000846cd92401134f707573486561640101000080bb0000\
         0000004f6767530000000000000000000001000000010000006bb10adb01144f707573546167730400000063\
         656c74000000004f6767530000c0030000000000000100000002000000d838bd500103f8fffe4f6767530004\
         800700000000000001000000030000005ac80fd10103f8",
        fault: Some((FaultName::Truncated, 3)),
        outputs: [
            (1964, 17194348320455522634),
            (1920, 0),
            (1920, 0),
            (13, 12076875736001363015),
        ],
    },
    Row {
        name: "no end",
        stream: "4f676753000200000000000000000100000000000000846cd92401134f707573486561640101000080bb0000\
         0000004f6767530000000000000000000001000000010000006bb10adb01144f707573546167730400000063\
         656c74000000004f6767530000c0030000000000000100000002000000d838bd500103f8fffe",
        fault: Some((FaultName::Truncated, 3)),
        outputs: [
            (1964, 17194348320455522634),
            (1920, 0),
            (1920, 0),
            (13, 12076875736001363015),
        ],
    },
    Row {
        name: "a byte behind the end",
        stream: "4f676753000200000000000000000100000000000000846cd92401134f707573486561640101000080bb0000\
         0000004f6767530000000000000000000001000000010000006bb10adb01144f707573546167730400000063\
         656c74000000004f6767530004c00300000000000001000000020000002993b0dd0103f8fffe00",
        fault: Some((FaultName::AfterEnd, 3)),
        outputs: [
            (1964, 17194348320455522634),
            (1920, 0),
            (1920, 0),
            (13, 12076875736001363015),
        ],
    },
    Row {
        name: "nothing",
        stream: "",
        fault: Some((FaultName::Truncated, 0)),
        outputs: [(0, 0), (0, 0), (0, 0), (0, 0)],
    },
    Row {
        name: "a granule position below the samples",
        stream: "4f676753000200000000000000000100000000000000846cd92401134f707573486561640101000080bb0000\
         0000004f6767530000000000000000000001000000010000006bb10adb01144f707573546167730400000063\
         656c74000000004f6767530000c0030000000000000100000002000000d838bd500103f8fffe4f6767530004\
         bf030000000000000100000003000000b1b228a20103f8fffe",
        fault: Some((FaultName::BadGranule, 3)),
        outputs: [
            (1964, 17194348320455522634),
            (1920, 0),
            (1920, 0),
            (13, 12076875736001363015),
        ],
    },
    Row {
        name: "a sounding frame, a lost one and a silent one",
        stream: "4f6767530002000000000000000001000000000000009a91a9a101134f707573486561640102000080bb0000\
         0000004f6767530000000000000000000001000000010000006bb10adb01144f707573546167730400000063\
         656c74000000004f6767530004400b0000000000000100000002000000d7c9739303290103fc7f513a65308a\
         cc784fb3e7323ea2f6b812b85efae242244579d4bcab0220694a75ec6c165d5ebe43fcf8fffe",
        fault: None,
        outputs: [
            (11564, 871315595787431919),
            (11520, 11864143731184405354),
            (11520, 11864143731184405354),
            (40, 2377853972235287403),
        ],
    },
    Row {
        name: "two channels",
        stream: "4f676753000200000000000000000100000000000000bcd1306601134f707573486561640102780080bb0000\
         0000004f6767530000000000000000000001000000010000006bb10adb01144f707573546167730400000063\
         656c74000000004f6767530000c0030000000000000100000002000000b06154ca0129fc7f513a65308acc78\
         4fb3e7323ea2f6b812b85efae242244579d4bcab0220694a75ec6c165d5ebe434f6767530000800700000000\
         00000100000003000000614bf6190129fcf053a8cbb370c50a6d7191b9d5c6b6689fa59db5cec72c52a41098\
         a750141fd831adca72548e265d4f6767530004400b000000000000010000000400000067646ba70129fcec3b\
         8ac577c403aa46fddab44c5e07f0b162c4518c047176837061711963b40f5d5a7cff3081365d",
        fault: None,
        outputs: [
            (11084, 9879864320909728004),
            (11040, 3152408181799914495),
            (11040, 9694553749960692212),
            (42, 12035307388258573599),
        ],
    },
    Row {
        name: "two channels, all on a page, with gain",
        stream: "4f676753000200000000000000000100000000000000a6f834f901134f707573486561640102780080bb0000\
         44fd004f6767530000000000000000000001000000010000006bb10adb01144f707573546167730400000063\
         656c74000000004f67675300048c0a000000000000010000000200000087acb1c703292929fc7f513a65308a\
         cc784fb3e7323ea2f6b812b85efae242244579d4bcab0220694a75ec6c165d5ebe43fcf053a8cbb370c50a6d\
         7191b9d5c6b6689fa59db5cec72c52a41098a750141fd831adca72548e265dfcec3b8ac577c403aa46fddab4\
         4c5e07f0b162c4518c047176837061711963b40f5d5a7cff3081365d",
        fault: None,
        outputs: [
            (10364, 18183870537172682869),
            (10320, 5711070274033010352),
            (10320, 10269297743733808946),
            (42, 12035307388258573599),
        ],
    },
    Row {
        name: "one channel",
        stream: "4f676753000200000000000000000100000000000000d77a1f6201134f707573486561640101640080bb0000\
         0001004f6767530000000000000000000001000000010000006bb10adb01144f707573546167730400000063\
         656c74000000004f676753000478050000000000000100000002000000d1e8fe4406191919191919b0ca9911\
         342f280531222e2ca4eaf5db6940902e9977e78249b0dbbd564b03a4fd4b9978a09a67ed440819f3a57d973b\
         dc91b0ebdbb2a61f3e4b90b2fd09ef064ad936180e8ff9f2f81921b0edd745081a72d3affb36fe3da8524147\
         3ed8d0200697e9e9b0eab368c1b15180dceec36ed44b539ae17590591e556bd859b0d949d48f9931c33dc2d3\
         ea42e83fd35c49092e91bcb98a91",
        fault: None,
        outputs: [
            (2644, 9208069744616588132),
            (2600, 18060887922863198426),
            (2600, 18060887922863198426),
            (84, 10887740153373860108),
        ],
    },
    Row {
        name: "two channels into one",
        stream: "4f676753000200000000000000000100000000000000846cd92401134f707573486561640101000080bb0000\
         0000004f6767530000000000000000000001000000010000006bb10adb01144f707573546167730400000063\
         656c74000000004f6767530004400b0000000000000100000002000000c34c481e03292929fc7f513a65308a\
         cc784fb3e7323ea2f6b812b85efae242244579d4bcab0220694a75ec6c165d5ebe43fcf053a8cbb370c50a6d\
         7191b9d5c6b6689fa59db5cec72c52a41098a750141fd831adca72548e265dfcec3b8ac577c403aa46fddab4\
         4c5e07f0b162c4518c047176837061711963b40f5d5a7cff3081365d",
        fault: None,
        outputs: [
            (5804, 11635225184004723446),
            (5760, 16069472148100702636),
            (5760, 5384672062777133804),
            (42, 12035307388258573599),
        ],
    },
    Row {
        name: "one channel into two",
        stream: "4f6767530002000000000000000001000000000000009a91a9a101134f707573486561640102000080bb0000\
         0000004f6767530000000000000000000001000000010000006bb10adb01144f707573546167730400000063\
         656c74000000004f6767530004a00500000000000001000000020000002d9140e503191919b0ca9911342f28\
         0531222e2ca4eaf5db6940902e9977e78249b0dbbd564b03a4fd4b9978a09a67ed440819f3a57d973bdc91b0\
         ebdbb2a61f3e4b90b2fd09ef064ad936180e8ff9f2f81921",
        fault: None,
        outputs: [
            (5804, 8583577145492886251),
            (5760, 12654521590109440102),
            (5760, 12654521590109440102),
            (42, 6949659896034136452),
        ],
    },
    Row {
        name: "a packet over two pages",
        stream: "4f676753000200000000000000000100000000000000846cd92401134f707573486561640101000080bb0000\
         0000004f6767530000000000000000000001000000010000006bb10adb01144f707573546167730400000063\
         656c74000000004f6767530000ffffffffffffffff0100000002000000fffdbe9f01fff8fffe000000000000\
         0000000000000000000000000000000000000000000000000000000000000000000000000000000000000000\
         0000000000000000000000000000000000000000000000000000000000000000000000000000000000000000\
         0000000000000000000000000000000000000000000000000000000000000000000000000000000000000000\
         0000000000000000000000000000000000000000000000000000000000000000000000000000000000000000\
         0000000000000000000000000000000000000000000000000000000000000000000000000000000000000000\
         00000000000000000000000000000000000000000000000000004f6767530005c00300000000000001000000\
         03000000eecfb342010400000000",
        fault: None,
        outputs: [
            (1964, 17194348320455522634),
            (1920, 0),
            (1920, 0),
            (15, 5317060550052697478),
        ],
    },
    Row {
        name: "twenty frames on a page",
        stream: "4f676753000200000000000000000100000000000000846cd92401134f707573486561640101000080bb0000\
         0000004f6767530000000000000000000001000000010000006bb10adb01144f707573546167730400000063\
         656c74000000004f67675300046009000000000000010000000200000020f3ff111403030303030303030301\
         03030303030303030303e0fffee0fffee0fffee0fffee0fffee0fffee0fffee0fffee0fffee0e0fffee0fffe\
         e0fffee0fffee0fffee0fffee0fffee0fffee0fffee0fffe",
        fault: None,
        outputs: [
            (4844, 6246549363278336842),
            (4800, 0),
            (4800, 0),
            (270, 9596104711852941861),
        ],
    },
    Row {
        name: "a packet of three frames, one of them lost",
        stream: "4f6767530002000000000000000001000000000000009a91a9a101134f707573486561640102000080bb0000\
         0000004f6767530000000000000000000001000000010000006bb10adb01144f707573546167730400000063\
         656c74000000004f6767530004400b000000000000010000000200000037e85b160108ff830200fffefffe",
        fault: None,
        outputs: [
            (11564, 7453915938312578181),
            (11520, 0),
            (11520, 0),
            (39, 16011981578697277641),
        ],
    },
];

/// The value of a hexadecimal digit.
fn digit(code: u8) -> u8 {
    match code {
        b'a'..=b'f' => code - b'a' + 10,
        _ => code.saturating_sub(b'0') % 16,
    }
}

/// The bytes that the digits stand for.
pub(crate) fn bytes_of(alloc: Global, text: &str) -> Result<Vec<u8>, AllocError> {
    let mut bytes = Vec::new(alloc);
    for pair in text.as_bytes().chunks(2) {
        if let [high, low] = pair {
            bytes.push(digit(*high) << 4 | digit(*low))?;
        }
    }
    Ok(bytes)
}

/// A sum that every byte and its place goes into.
pub(crate) fn sum(bytes: &[u8]) -> u64 {
    let mut sum = 0u64;
    for byte in bytes {
        sum = sum.wrapping_mul(1_000_003).wrapping_add(u64::from(*byte));
    }
    sum
}

/// The bytes in pieces of this size, which is not 0.
fn pieces(alloc: Global, bytes: &[u8], size: usize) -> Result<Vec<Vec<u8>>, AllocError> {
    let mut pieces = Vec::new(alloc);
    for piece in bytes.chunks(size.max(1)) {
        pieces.push(Vec::from_slice(alloc, piece)?)?;
    }
    Ok(pieces)
}

/// The rows. They are read by this call alone, so that no other function has their bytes in its proof.
pub(crate) fn rows() -> [Row; 21] {
    ROWS
}

fn status_of(fault: Option<(FaultName, u64)>) -> Status {
    match fault {
        Some((name, at)) => Status::Refused(Fault { name, at }),
        None => Status::Done,
    }
}

/// A row through the stream call.
fn streamed(
    rt: &(impl Threads + Abort + AllocGlobal),
    row: Row,
    bytes: &[u8],
    size: usize,
) -> Result<(), AllocError> {
    let alloc = rt.alloc();
    let name = row.name;
    for (settings, want) in SETTINGS.iter().zip(row.outputs.iter()) {
        let mut input = MemSource::new(pieces(alloc, bytes, size)?, Vec::new(alloc));
        let mut output = MemSink::new(alloc, Vec::new(alloc));
        let status = decode_stream(
            rt,
            alloc,
            *settings,
            1 << 40,
            &mut input,
            &mut output,
            &NoGate,
        );
        assert_eq!(rt; status, status_of(row.fault), "{name}");
        let got = (output.bytes().len(), sum(output.bytes()));
        assert_eq!(rt; got, *want, "{name}");
    }
    Ok(())
}

#[test]
fn streams(rt: HostRuntime) -> Result<(), AllocError> {
    for row in rows() {
        let bytes = bytes_of(rt.alloc(), row.stream)?;
        for size in [1, 7, 65_536] {
            streamed(&rt, row, &bytes, size)?;
        }
    }
    Ok(())
}

// An input of just the limit is read to its end, and one more byte is too long.
#[test]
fn limits(rt: HostRuntime) -> Result<(), AllocError> {
    let alloc = rt.alloc();
    let [row, ..] = rows();
    let [_, settings, ..] = SETTINGS;
    let bytes = bytes_of(alloc, row.stream)?;
    let rows: [(u64, Status, usize); 4] = [
        (10, Status::InputTooLong, 0),
        (125, Status::InputTooLong, 0),
        (126, Status::Done, 1920),
        (65_307, Status::Done, 1920),
    ];
    for (limit, want, len) in rows {
        let mut input = MemSource::new(pieces(alloc, &bytes, 7)?, Vec::new(alloc));
        let mut output = MemSink::new(alloc, Vec::new(alloc));
        let status = decode_stream(
            &rt,
            alloc,
            settings,
            limit,
            &mut input,
            &mut output,
            &NoGate,
        );
        assert_eq!(rt; status, want, "limit {limit}");
        assert_eq!(rt; output.bytes().len(), len, "limit {limit}");
    }
    Ok(())
}
