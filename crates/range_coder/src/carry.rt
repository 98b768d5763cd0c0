//! A room as one number, most significant byte first: values are added to it with their carries.
ghost use Rattle.std.specs.Prelude.{◌≡◌, ◌+◌, ◌-◌, ◌*◌, ◌^◌, ◌<◌, length};
ghost use Rattle.range_coder.specs.FrameBits.{number};

/// Adds a value of which the lowest bit is that of the byte at `at`. What the byte does not hold goes on into those before
/// it.
pub fn add(room: &mut [u8], at: usize, value: u32)
    requires within { at < length room.old }
    requires small { value < 2 ^ 31 }
    ensures len { length room.new ≡ length room.old }
    ensures sum { number room.old + value * 2 ^ (8 * (length room.old - (at + 1))) < 2 ^ (8 * length room.old)
        → number room.new ≡ number room.old + value * 2 ^ (8 * (length room.old - (at + 1))) }
{
    let mut end = at + 1;
    let mut carry = value;
    while end > 0 && carry > 0 {
        end -= 1;
        let sum = u32::from(room[end]) + carry;
        room[end] = (sum % 256) as u8;
        carry = sum / 256;
    }
}
