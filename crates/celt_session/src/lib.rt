//! Decoding of Ogg streams and encoding of WAV files, in pieces of any size and in bounded room: the accepted pages of a
//! stream one after the other and the work on each of them, and the frames of a file and the pages of their packets.
#![tactic(auto)]

mod batch;
mod batching;
mod coding;
mod concluding;
mod decoding;
mod encode_session;
mod encoded_laws;
mod encoder_pair;
mod encoder_work;
mod encoding_laws;
mod ended;
mod ending;
mod fed;
mod feeding;
mod frame_batch;
mod frame_session;
mod framer;
#[cfg(test)]
mod gate_tests;
mod given_laws;
mod giving;
mod hearing;
mod kept_laws;
mod laws;
mod lines;
mod lockstep_laws;
mod maker;
mod making;
mod memory;
mod packer;
mod packet_writer;
mod packing;
mod page_writer;
mod plan;
mod planning;
mod playing;
mod recorder;
mod recording;
mod samples;
mod session;
#[cfg(test)]
mod session_tests;
mod settings;
mod stream;
#[cfg(test)]
mod stream_tests;
mod streaming;
pub mod text;
mod work;

pub use decoding::{DecodeSession, decode_stream};
pub use encode_session::EncodeSession;
pub use encoded_laws::{law_frame_length, law_window_pitch};
pub use encoding_laws::{law_frames, law_stream_goes_on, law_wave_fault_stays};
pub use ended::Ended;
pub use fed::Fed;
pub use given_laws::{law_given_goes_on, law_given_packets};
pub use kept_laws::{law_decoded_length, law_samples_kept};
pub use laws::{law_failed_write, law_fault_stays, law_pieces, law_running_goes_on};
pub use lockstep_laws::law_in_step;
pub use settings::{DecodeSettings, Form, Settings};
pub use streaming::encode_stream;

#[cfg(test)]
mod tests;
