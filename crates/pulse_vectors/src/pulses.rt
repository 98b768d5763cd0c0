//! The number of pulses that an index stands for (RFC 6716, section 4.3.4.1).

ghost use Rattle.std.specs.Prelude.{◌≡◌, ◌≤◌};
ghost use Rattle.pulse_vectors.specs.Costs.{pulses_at};

/// The number of pulses that an index from 0 to 40 stands for: 0 to 16 one by one, then eight
/// steps to each doubling, up to 128.
#[tactic(auto, unfolding(crate::specs::Costs::pulses_at))]
pub fn pulses_of(index: u32) -> u32
    requires { index ≤ 40 }
    ensures exact { result ≡ pulses_at index }
    ensures most { result ≤ 128 }
{
    if index < 8 {
        index
    } else {
        (8 + index % 8) << (index / 8 - 1)
    }
}
