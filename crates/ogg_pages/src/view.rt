//! The fields of a page (RFC 3533, section 6), read from its bytes.
ghost use Rattle.std.specs.Prelude.{◌≡◌, length};
ghost use Rattle.ogg_pages.specs.Bounds.{page_len};

use crate::page::HEADER_LEN;
use byteorder::{ByteOrder, LittleEndian};

/// A sound page.
#[derive(Clone, Copy, Debug)]
pub struct PageView<'a> {
    bytes: &'a [u8],
    ghost whole: { page_len bytes.now ≡ length bytes.now },
}

impl<'a> PageView<'a> {
    ghost use Rattle.std.specs.Prelude.{◌≡◌, length};
    ghost use Rattle.ogg_pages.specs.Bounds.{page_len};
    ghost use Rattle.ogg_pages.specs.Views.{bytes_in, page_in};

    /// The view of a whole page.
    pub(crate) fn new(bytes: &'a [u8]) -> PageView<'a>
        requires { page_len bytes.now ≡ length bytes.now }
        ensures { bytes_in result ≡ bytes.now }
    {
        PageView { bytes }
    }

    /// The header type flags: 1 continued, 2 first page, 4 last page.
    pub fn flags(&self) -> u8
        ensures { result ≡ (page_in self.now).flags }
    {
        self.bytes[5]
    }

    /// The granule position.
    pub fn granule(&self) -> i64
        ensures { result ≡ (page_in self.now).granule }
    {
        let (_, field) = self.bytes.split_at(6);
        LittleEndian::read_i64(field)
    }

    /// The serial number of the logical stream.
    pub fn serial(&self) -> u32
        ensures { result ≡ (page_in self.now).serial }
    {
        let (_, field) = self.bytes.split_at(14);
        LittleEndian::read_u32(field)
    }

    /// The sequence number of the page.
    pub fn sequence(&self) -> u32
        ensures { result ≡ (page_in self.now).sequence }
    {
        let (_, field) = self.bytes.split_at(18);
        LittleEndian::read_u32(field)
    }

    /// The lacing values, one for each segment.
    pub fn segments(&self) -> &'a [u8]
        ensures { result.now ≡ (page_in self.now).lacing }
    {
        let (_, rest) = self.bytes.split_at(HEADER_LEN);
        let (lacing, _) = rest.split_at(usize::from(self.bytes[26]));
        lacing
    }

    /// The segments, one after the other.
    pub fn body(&self) -> &'a [u8]
        ensures { result.now ≡ (page_in self.now).body }
    {
        let (_, rest) = self
            .bytes
            .split_at(HEADER_LEN + usize::from(self.bytes[26]));
        rest
    }

    /// The page as it stands.
    pub fn bytes(&self) -> &'a [u8]
        ensures { result.now ≡ bytes_in self.now }
    {
        self.bytes
    }
}
