//! Laws of what is stated of packets: the reading and the spelling of a packet belong together, and
//! those of an identification header.
//! Each function's body is empty, and its clause is the law.
ghost use Rattle.std.specs.Prelude.{◌≡◌, ℕ, ◌+◌, ◌≤◌, ◌<◌, List, Ok, IfOk, IsOkAnd, length};
ghost use Rattle.opus_packets.specs.Cut.{Cut, start_of, end_of, frames_of};
ghost use Rattle.opus_packets.specs.Packet.{cut_of, IsCut};
ghost use Rattle.opus_packets.specs.Form.{Form, AreBytes, IsSound, IsSpelled, frames_in, spelled};
ghost use Rattle.opus_packets.specs.Header.{head_of, Fields, AreFields, IsSpelledHead, spelled_head, head_in};

/// Every packet that is spelled by a form, with frames of at most 1275 bytes that last at most 120 ms,
/// is cut into just these frames (RFC 6716, section 3).
pub fn law_spelled_packets_are_cut()
    ensures { (toc : ℕ) (form : Form) → IsSound toc form
        → IsOkAnd (cut_of (spelled toc form)) (λ cut. frames_of cut ≡ frames_in form) }
{}

/// Every packet that is cut into frames is spelled by a form with just these frames (RFC 6716, section
/// 3). So a packet is refused exactly where no form spells it.
pub fn law_cut_packets_are_spelled()
    ensures { (packet : List ℕ) → AreBytes packet
        → IfOk (cut_of packet) (λ cut. IsSpelled packet (frames_of cut)) }
{}

/// Each frame of a packet begins where the one before it ends, and they all lie within the packet.
pub fn law_frames_follow_one_another()
    ensures follow { (cut : Cut) (i : ℕ) → i < length cut.lengths → end_of cut i ≡ start_of cut (i + 1) }
    ensures within { (cut : Cut) (i : ℕ) → IsCut cut → i < length cut.lengths → end_of cut i ≤ length cut.packet }
{}

/// Every identification header of mapping family 0 that is spelled from its fields says these fields
/// (RFC 7845, section 5.1).
pub fn law_spelled_heads_are_read()
    ensures { (fields : Fields) → AreFields fields → head_of (spelled_head fields) ≡ Ok (head_in fields) }
{}

/// Every identification header that is read is spelled from fields that it says (RFC 7845, section
/// 5.1).
pub fn law_read_heads_are_spelled()
    ensures { (bytes : List ℕ) → AreBytes bytes → IfOk (head_of bytes) (λ head. IsSpelledHead bytes head) }
{}
