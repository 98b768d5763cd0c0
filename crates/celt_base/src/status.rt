//! How a command ends, and the faults that an input can have.

/// Memory was refused. What the refused call was handed stays as it was.
#[derive(Clone, Copy, Debug, PartialEq, Eq)]
pub struct OutOfMemory;

/// How a command ends.
#[derive(Clone, Copy, Debug, PartialEq, Eq)]
pub enum Status {
    /// The input was read to its end and has no fault.
    Done,
    /// The input has this earliest fault.
    Refused(Fault),
    /// The words of the command are not accepted. Nothing was read.
    Usage,
    /// Reading failed.
    ReadFault,
    /// Writing failed.
    WriteFault,
    /// Memory was refused.
    NoMemory,
    /// The input is longer than the limit.
    InputTooLong,
}

impl Status {
    ghost use Rattle.std.specs.Prelude.{◌≡◌};
    ghost use Rattle.celt_base.specs.Statuses.{code_of};

    /// The exit code of a status.
    pub fn code(self) -> u8
        ensures { result ≡ code_of self }
    {
        match self {
            Status::Done => 0,
            Status::Refused(_) => 1,
            Status::Usage => 2,
            Status::ReadFault => 3,
            Status::WriteFault => 4,
            Status::NoMemory => 5,
            Status::InputTooLong => 6,
        }
    }
}

/// A fault of the input, and where it is: the number of a page, of an audio packet, of a byte or of a line of text, each
/// from 0, as its name says.
#[derive(Clone, Copy, Debug, PartialEq, Eq)]
pub struct Fault {
    pub name: FaultName,
    pub at: u64,
}

/// What is wrong with an input, and what `Fault::at` counts.
#[derive(Clone, Copy, Debug, PartialEq, Eq)]
pub enum FaultName {
    /// A page does not begin with `OggS` (page).
    BadCapture,
    /// A page's version is not 0 (page).
    BadPageVersion,
    /// A page's checksum differs (page).
    BadChecksum,
    /// A page belongs to another logical stream (page).
    OtherStream,
    /// A page's sequence number is not the one that follows (page).
    PageGap,
    /// A packet is continued where none is open, or is not where one is, or stays open at the end (page).
    BadContinuation,
    /// The identification header is malformed (page).
    BadHead,
    /// The channel mapping family is not 0 (page).
    UnsupportedFamily,
    /// The comment header is malformed (page).
    BadTags,
    /// An audio packet has more than 61440 bytes (packet).
    PacketTooLong,
    /// An audio packet breaks a rule of RFC 6716, section 3.4 (packet).
    BadPacket {
        rule: u8,
    },
    /// An audio packet is not of the CELT-only mode (packet).
    NotCelt {
        config: u8,
    },
    /// A granule position contradicts the samples (page).
    BadGranule,
    /// A byte follows the last page (page).
    AfterEnd,
    /// The stream ends before its last page (page).
    Truncated,
    /// The input is no RIFF WAVE file (byte).
    BadRiff,
    /// The samples of a WAVE file are of a form that is not read (byte).
    UnsupportedFormat {
        codec: u16,
        bits: u16,
        channels: u16,
        rate: u32,
    },
    /// A WAVE file has no samples chunk (byte).
    NoData,
    /// A WAVE file ends before its declared size (byte).
    DataTruncated,
    /// A link of a chained stream has another number of channels than its first link (page).
    ChannelChange,
    /// A chained stream has no link of the number that is to be cut out (page).
    NoLink,
    /// A line of a text of symbols is none that may stand there (line).
    BadText,
    /// The symbols of a frame in a text take more bits than the frame has (line).
    TextOverrun,
    /// A text of symbols ends inside a line or inside a frame (line).
    TextTruncated,
}
