//! Why an Opus packet cannot be cut into frames.

/// The rule of RFC 6716, section 3.4, that a packet breaks first. The rules are tested in the order in
/// which the packet is read.
#[derive(Clone, Copy, Debug, PartialEq, Eq)]
pub enum PacketFault {
    /// The packet is empty.
    R1,
    /// A frame whose length is not given has more than 1275 bytes.
    R2,
    /// Code 1: the bytes behind the first one are not two equal halves.
    R3,
    /// Code 2: the length of the first frame is not whole, or exceeds the bytes behind it.
    R4,
    /// Code 3: there is no frame, or the frames last more than 120 ms.
    R5,
    /// Code 3: there is no second byte. Or, with frames of one length: the padding is not whole, or
    /// what is left is no multiple of the number of frames.
    R6,
    /// Code 3 with given lengths: the padding, the lengths or the frames are not whole.
    R7,
}
