//! A session: a file in pieces, and the packets of its samples.
use crate::maker::Maker;
use crate::recording::Recording;
use crate::settings::Settings;
use wav_edge::reader::HeaderReader;

/// A file that is read in pieces, and a work on the windows of its samples. It takes no memory after it was made.
#[derive(Drop)]
pub(crate) struct FrameSession<W: Drop> {
    pub settings: Settings,
    pub header: HeaderReader,
    /// None before the samples begin.
    pub recording: Option<Recording>,
    pub maker: Maker<W>,
    /// How many bytes it was fed.
    pub fed: u64,
    /// Whether a fault was answered, a write failed, or the file was ended.
    pub is_ended: bool,
}
