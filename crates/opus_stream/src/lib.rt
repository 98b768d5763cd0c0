//! Whole streams of Ogg pages as packets of Opus: bytes in pieces of any size, pages, packets over pages, and
//! what is written of their samples (RFC 3533, RFC 7845).
#![tactic(auto)]

mod accepting;
mod answers;
mod granules;
mod laws;
mod packets;
mod pages;
mod progress;
mod reader;
mod room;
#[cfg(test)]
mod rows;
mod step;
#[cfg(test)]
mod tests;

pub use answers::{Accept, Span};
pub use laws::{
    law_counts, law_fault_stays, law_first_page, law_links, law_packets_are_sound, law_pages_go_on,
    law_readers_alike, law_spans, law_streams_are_read, law_streams_are_spelled,
};
pub use reader::StreamReader;
