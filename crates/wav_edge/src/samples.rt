//! Samples of 16 bits and their bytes: two's complement, the lower byte first, channels interleaved.
ghost use Rattle.std.specs.Prelude.{◌≡◌, ◌*◌, length};
ghost use Rattle.wav_edge.specs.Samples.{samples_of, bytes_of};

/// The samples of some bytes, of which there are twice as many.
pub fn to_samples(bytes: &[u8], out: &mut [i16])
    requires { length bytes.now ≡ 2 * length out.old }
    ensures { out.new ≡ samples_of bytes.now }
{
    for (i, sample) in out.iter_mut().enumerate() {
        *sample = i16::from_le_bytes([bytes[2 * i], bytes[2 * i + 1]]);
    }
}

/// The bytes of some samples, of which there are half as many.
pub fn from_samples(samples: &[i16], out: &mut [u8])
    requires { length out.old ≡ 2 * length samples.now }
    ensures { out.new ≡ bytes_of samples.now }
{
    for (i, sample) in samples.iter().enumerate() {
        let [low, high] = sample.to_le_bytes();
        out[2 * i] = low;
        out[2 * i + 1] = high;
    }
}
