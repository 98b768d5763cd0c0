//! Rows of the kinds, of the sources and of the sinks.
use crate::kind::Kind;
use crate::memory::{MemSink, MemSource};
use crate::outside::{Failed, Gate, NoGate, Sink, Source};
use crate::standard::{StdSink, StdSource};
use crate::status::{Fault, FaultName, Status};
use std::alloc::Global;

// Each row: the first byte of a packet, and the size exponent, channels and end that it names.
#[test]
fn kinds_of_first_bytes(rt: HostRuntime) {
    for toc in [0x00u8, 0x04, 0x78, 0x7f] {
        assert!(rt; Kind::of_toc(toc).is_none(), "at {toc}");
    }
    let rows = [
        (0x80u8, 0u8, 1u8, 13u8),
        (0x9f, 3, 2, 13),
        (0xa8, 1, 1, 17),
        (0xd4, 2, 2, 19),
        (0xf8, 3, 1, 21),
        (0xfc, 3, 2, 21),
    ];
    for (toc, lm, channels, end) in rows {
        let kind = Kind::of_toc(toc).expect(&rt, "a CELT configuration");
        assert_eq!(rt;
            (kind.lm, kind.channels, kind.end),
            (lm, channels, end),
            "at {toc}"
        );
    }
}

#[test]
fn exit_codes(rt: HostRuntime) {
    let fault = Fault {
        name: FaultName::BadChecksum,
        at: 7,
    };
    let rows = [
        (Status::Done, 0u8),
        (Status::Refused(fault), 1),
        (Status::Usage, 2),
        (Status::ReadFault, 3),
        (Status::WriteFault, 4),
        (Status::NoMemory, 5),
        (Status::InputTooLong, 6),
    ];
    for (status, code) in rows {
        assert_eq!(rt; status.code(), code);
    }
}

// One read of at most two bytes, through the bound.
fn next_two<S: Source>(source: &mut S) -> Result<(usize, [u8; 2]), Failed> {
    let mut buf = [0u8; 2];
    match source.read(&mut buf) {
        Ok(count) => Ok((count, buf)),
        Err(failed) => Err(failed),
    }
}

fn write_to<K: Sink>(sink: &mut K, bytes: &[u8]) -> Result<(), Failed> {
    sink.write_all(bytes)
}

fn pieces(alloc: Global) -> Result<Vec<Vec<u8>>, std::alloc::AllocError> {
    let none = Vec::new(alloc);
    let first = Vec::from_slice(alloc, &[1u8, 2, 3])?;
    let second = Vec::from_slice(alloc, &[4u8])?;
    Ok(vec![in alloc; none, first, Vec::new(alloc), second]?)
}

// Empty pieces are passed over, a read stays in its piece, and the named call alone fails.
#[test]
fn memory_gives_its_pieces(rt: HostRuntime) -> Result<(), std::alloc::AllocError> {
    let alloc = rt.alloc();
    let failing = vec![in alloc; 1u64]?;
    let mut source = MemSource::new(pieces(alloc)?, failing);
    assert_eq!(rt; next_two(&mut source), Ok((2, [1, 2])));
    assert_eq!(rt; next_two(&mut source), Err(Failed));
    assert_eq!(rt; next_two(&mut source), Ok((1, [3, 0])));
    assert_eq!(rt; next_two(&mut source), Ok((1, [4, 0])));
    assert_eq!(rt; next_two(&mut source), Ok((0, [0, 0])));
    Ok(())
}

// The named calls fail: each appends the first half of its bytes, rounded down.
#[test]
fn memory_keeps_what_is_written(rt: HostRuntime) -> Result<(), std::alloc::AllocError> {
    let alloc = rt.alloc();
    let mut sink = MemSink::new(alloc, Vec::from_slice(alloc, &[1u64, 2, 3])?);
    assert_eq!(rt; write_to(&mut sink, &[1, 2]), Ok(()));
    assert_eq!(rt; write_to(&mut sink, &[3, 4, 5]), Err(Failed));
    assert_eq!(rt; write_to(&mut sink, &[6]), Err(Failed));
    assert_eq!(rt; write_to(&mut sink, &[7, 8, 9, 10]), Err(Failed));
    assert_eq!(rt; write_to(&mut sink, &[11, 12]), Ok(()));
    assert_eq!(rt; sink.bytes(), &[1u8, 2, 3, 7, 8, 11, 12][..]);
    Ok(())
}

#[test]
fn adapters_over_std(rt: HostRuntime) -> Result<(), std::alloc::AllocError> {
    let mut source = StdSource::new(&b"abc"[..]);
    assert_eq!(rt; next_two(&mut source), Ok((2, *b"ab")));
    assert_eq!(rt; next_two(&mut source), Ok((1, [b'c', 0])));
    assert_eq!(rt; next_two(&mut source), Ok((0, [0, 0])));
    // A slice as a writer takes what fits, and then no byte: that is a fault.
    let mut room = [0u8; 3];
    let mut sink = StdSink::new(&mut room[..]);
    assert_eq!(rt; write_to(&mut sink, &[1, 2]), Ok(()));
    assert_eq!(rt; write_to(&mut sink, &[3, 4]), Err(Failed));
    NoGate.enter(0);
    Ok(())
}
