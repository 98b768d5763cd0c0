//! The spectra of a stream's channels from those of a frame's (RFC 6716, section 4.3.7): a mono frame in a stream of two
//! channels, and a stereo frame in a stream of one.
ghost use Rattle.std.specs.Prelude.{◌≡◌, ◌^◌, ◌≤◌, ◌+ℤ◌, unsigned_abs, length, All};
ghost use Rattle.std.specs.Int.{int_shr};
ghost use Rattle.celt_synth.specs.Streams.{middle_of, first_of, second_of};

// Half of a sum, floored.
fn half_sum(a: i64, b: i64) -> i64
    requires first { unsigned_abs a ≤ 2 ^ 30 }
    requires second { unsigned_abs b ≤ 2 ^ 30 }
    ensures value { result ≡ int_shr (a +ℤ b) 1 }
    ensures size { unsigned_abs result ≤ 2 ^ 30 }
{
    (a + b) >> 1
}

// The middle of both channels in place of the left.
fn mix(left: &mut [i64], right: &[i64])
    requires lengths { length right.now ≡ length left.old }
    requires left_sizes { All (λ v. unsigned_abs v ≤ 2 ^ 30) left.old }
    requires right_sizes { All (λ v. unsigned_abs v ≤ 2 ^ 30) right.now }
    ensures value { left.new ≡ middle_of left.old right.now }
    ensures sizes { All (λ v. unsigned_abs v ≤ 2 ^ 30) left.new }
{
    for p in 0..left.len() {
        left[p] = half_sum(left[p], right[p]);
    }
}

/// The spectrum of a stream of one channel, from those of a frame's channels, in place of the left.
pub fn to_mono(channels: u8, left: &mut [i64], right: &[i64])
    requires lengths { length right.now ≡ length left.old }
    requires left_sizes { All (λ v. unsigned_abs v ≤ 2 ^ 30) left.old }
    requires right_sizes { All (λ v. unsigned_abs v ≤ 2 ^ 30) right.now }
    ensures value { left.new ≡ first_of 1 channels left.old right.now }
    ensures sizes { All (λ v. unsigned_abs v ≤ 2 ^ 30) left.new }
{
    if channels > 1 {
        mix(left, right);
    }
}

/// The spectrum of the second channel of a stream of two, from those of a frame's channels, in place of the right.
pub fn to_stereo(channels: u8, left: &[i64], right: &mut [i64])
    requires lengths { length right.old ≡ length left.now }
    requires left_sizes { All (λ v. unsigned_abs v ≤ 2 ^ 30) left.now }
    requires right_sizes { All (λ v. unsigned_abs v ≤ 2 ^ 30) right.old }
    ensures value { right.new ≡ second_of channels left.now right.old }
    ensures sizes { All (λ v. unsigned_abs v ≤ 2 ^ 30) right.new }
{
    if channels == 1 {
        right.copy_from_slice(left);
    }
}
