//! Opus packets and the header packets of an Ogg Opus stream: a packet is cut into its frames and
//! written from them (RFC 6716, section 3), and the identification header is read and written
//! (RFC 7845, section 5). No call takes memory.
#![tactic(auto)]

mod fault;
mod frames;
mod header;
mod laws;
mod octets;
mod packet;
mod spelling;

pub use fault::PacketFault;
pub use frames::Frames;
pub use header::{Head, HeadFault, read_head, write_head, write_tags};
pub use laws::{
    law_cut_packets_are_spelled, law_frames_follow_one_another, law_read_heads_are_spelled,
    law_spelled_heads_are_read, law_spelled_packets_are_cut,
};
pub use packet::split;
pub use spelling::{pack, pack_group};

#[cfg(test)]
mod tests;
