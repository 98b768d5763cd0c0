//! Rows of pages: read from pieces, refused, and written. The pages were made by a program apart from
//! this one.
use crate::page::{MAX_PAGE_LEN, PageFault, Verdict, judge};
use crate::reader::{PageReader, Step, page_at};
use crate::writer::write_page;
use celt_base::status::OutOfMemory;
use std::alloc::Global;

/// A first page of the logical stream 1 with the packet `OpusHead` and eleven bytes more.
const FIRST: [u8; 47] = [
    0x4f, 0x67, 0x67, 0x53, 0x00, 0x02, 0x00, 0x00, 0x00, 0x00, 0x00, 0x00, 0x00, 0x00, 0x01, 0x00,
    0x00, 0x00, 0x00, 0x00, 0x00, 0x00, 0x84, 0x6c, 0xd9, 0x24, 0x01, 0x13, 0x4f, 0x70, 0x75, 0x73,
    0x48, 0x65, 0x61, 0x64, 0x01, 0x01, 0x00, 0x00, 0x80, 0xbb, 0x00, 0x00, 0x00, 0x00, 0x00,
];

/// The header and the lacing values of a page with flags 4, granule position -2, serial number 1,
/// sequence number 5 and a packet of AB and 299 times CD.
const LAST_HEAD: [u8; 29] = [
    0x4f, 0x67, 0x67, 0x53, 0x00, 0x04, 0xfe, 0xff, 0xff, 0xff, 0xff, 0xff, 0xff, 0xff, 0x01, 0x00,
    0x00, 0x00, 0x05, 0x00, 0x00, 0x00, 0x9a, 0xfd, 0x19, 0x70, 0x02, 0xff, 0x2d,
];

/// A reader that was fed these bytes.
fn fed(alloc: Global, bytes: &[u8]) -> Result<PageReader, OutOfMemory> {
    let mut reader = PageReader::new(alloc)?;
    reader.feed(bytes);
    Ok(reader)
}

#[test]
fn pages_are_read(rt: HostRuntime) -> Result<(), OutOfMemory> {
    let alloc = rt.alloc();
    let (front, rest) = FIRST.split_at(26);
    let mut reader = fed(alloc, front)?;
    assert!(rt; matches!(reader.next_page(), Step::Need));
    assert_eq!(rt; reader.feed(rest), 21);
    assert_eq!(rt; reader.feed(&FIRST[..3]), 3);
    let Step::Page(page) = reader.next_page() else {
        unreached(&rt);
        return Ok(());
    };
    assert_eq!(rt;
        (page.flags(), page.granule(), page.serial(), page.sequence()),
        (2, 0, 1, 0)
    );
    assert_eq!(rt; page.segments(), &[19u8][..]);
    assert_eq!(rt; page.body(), &FIRST[28..]);
    assert_eq!(rt; page.bytes(), &FIRST[..]);
    assert_eq!(rt; reader.held(), 3);
    assert!(rt; matches!(reader.next_page(), Step::Need));
    Ok(())
}

/// As many bytes 7.
fn filled(alloc: Global, len: usize) -> Result<Vec<u8>, std::alloc::AllocError> {
    vec![in alloc; 7u8; len]
}

fn unreached(rt: &impl std::process::Abort) {
    assert!(rt; false, "a page");
}

#[test]
fn faults_are_answered_again(rt: HostRuntime) -> Result<(), OutOfMemory> {
    let alloc = rt.alloc();
    let mut reader = fed(alloc, b"OggX")?;
    for _ in 0..2 {
        assert!(rt; matches!(reader.next_page(), Step::Fault(PageFault::BadCapture)));
    }
    let mut changed = FIRST;
    changed[4] = 1;
    assert_eq!(rt; judge(&changed), Verdict::Fault(PageFault::BadPageVersion));
    assert_eq!(rt;
        judge(&changed[..5]),
        Verdict::Fault(PageFault::BadPageVersion)
    );
    let mut changed = FIRST;
    changed[46] = 1;
    let mut reader = fed(alloc, &changed)?;
    for _ in 0..2 {
        assert!(rt; matches!(reader.next_page(), Step::Fault(PageFault::BadChecksum)));
    }
    // Less than a page, and no test is broken so far.
    let mut reader = fed(alloc, &[0x4f])?;
    assert!(rt; matches!(reader.next_page(), Step::Need));
    assert!(rt; matches!(page_at(&[]), Step::Need));
    Ok(())
}

#[test]
fn a_page_is_written(rt: HostRuntime) -> Result<(), std::alloc::AllocError> {
    let mut packet = [0xcdu8; 300];
    packet[0] = 0xab;
    let mut out = filled(rt.alloc(), MAX_PAGE_LEN)?;
    assert_eq!(rt; out.len(), MAX_PAGE_LEN);
    let len = write_page(4, -2, 5, &packet, &mut out);
    assert_eq!(rt; len, 329);
    let mut want = Vec::from_slice(rt.alloc(), &LAST_HEAD)?;
    want.extend_from_slice(&packet)?;
    let untouched = filled(rt.alloc(), MAX_PAGE_LEN - 329)?;
    want.extend_from_slice(&untouched)?;
    assert_eq!(rt; out.as_slice(), want.as_slice());
    assert_eq!(rt; judge(&out), Verdict::Whole(329));
    Ok(())
}
