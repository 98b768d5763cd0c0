//! `gen` through the program: its words, and lines that a program apart from this one computed.
use crate::tests::{Failing, NONE_FAILS, attempt};
use celt_base::status::Status;
use std::alloc::AllocError;

#[test]
fn words_of_gen(rt: HostRuntime) -> Result<(), AllocError> {
    let alloc = rt.alloc();
    let usage: [&[&str]; 16] = [
        &["gen"],
        &["gen", "--seed", "7"],
        &["gen", "--frames", "500"],
        &["gen", "--seed", "--frames", "500"],
        &["gen", "--seed", "4294967296", "--frames", "1"],
        &["gen", "--seed", "00000000007", "--frames", "1"],
        &["gen", "--seed", "-1", "--frames", "1"],
        &["gen", "--seed", "0x7", "--frames", "1"],
        &["gen", "--seed=", "--frames=1"],
        &["gen", "--seed", "7", "--frames", "0"],
        &["gen", "--seed", "7", "--frames", "10001"],
        &["gen", "--seed", "7", "--frames", "1", "--seed", "7"],
        &["gen", "--seed", "7", "--frames", "1", "x"],
        &["gen", "--seed", "7", "--frames", "1", "--bytes", "80"],
        &["gen", "--seed", "7", "--", "--frames", "1"],
        &["Gen", "--seed", "7", "--frames", "1"],
    ];
    for words in usage {
        let got = attempt(&rt, alloc, words, b"", 1, NONE_FAILS)?;
        assert_eq!(rt; got.status, Status::Usage);
        assert!(rt; got.output.is_empty());
        assert_eq!(rt; got.notes.as_slice(), b"celt: usage\n".as_slice());
    }
    Ok(())
}

/// What words of `gen` give. Nothing is read: the first read would fail.
const ROWS: [(&[&str], &str); 5] = [
    (
        &["gen", "--frames=1", "--seed=0"],
        "frames 1 samples 840 silent 0 range 6be17f00 sum 7dcf00ee\n",
    ),
    (
        &["gen", "--seed", "1", "--frames", "2", "--"],
        "frames 2 samples 1800 silent 0 range 011c4200 sum 6494fd79\n",
    ),
    (
        &["gen", "--seed=0000000007", "--frames=0000000003"],
        "frames 3 samples 2760 silent 0 range 01960e00 sum 1058b246\n",
    ),
    (
        &["gen", "--seed", "4294967295", "--frames", "5"],
        "frames 5 samples 4680 silent 0 range 0607b700 sum f32574e0\n",
    ),
    (
        &["gen", "--seed", "7", "--frames", "500"],
        "frames 500 samples 479880 silent 0 range 550c6200 sum 15c9de94\n",
    ),
];

#[test]
fn lines_of_gen(rt: HostRuntime) -> Result<(), AllocError> {
    let alloc = rt.alloc();
    for (words, line) in ROWS {
        let read = Failing {
            read: Some(0),
            ..NONE_FAILS
        };
        let got = attempt(&rt, alloc, words, b"", 1, read)?;
        assert_eq!(rt; got.status, Status::Done);
        assert_eq!(rt; got.output.as_slice(), line.as_bytes());
        assert!(rt; got.notes.is_empty());
    }
    Ok(())
}

// The write fails: the first half of the line was added.
#[test]
fn failed_line(rt: HostRuntime) -> Result<(), AllocError> {
    let alloc = rt.alloc();
    let [(words, line), ..] = ROWS;
    let write = Failing {
        write: Some(0),
        ..NONE_FAILS
    };
    let got = attempt(&rt, alloc, words, b"", 1, write)?;
    assert_eq!(rt; got.status, Status::WriteFault);
    let (half, _) = line.as_bytes().split_at(line.len() / 2);
    assert_eq!(rt; got.output.as_slice(), half);
    assert!(rt; got.notes.is_empty());
    Ok(())
}
