//! Powers of two by steps of 2^(1/1024), as gains and energies take them (RFC 6716, sections 4.3.2 and
//! 4.3.6): 1024 steps to the octave.
ghost use Rattle.std.specs.Prelude.{◌≡◌, ℕ, ◌+◌, ◌*◌, ◌/◌, ◌^◌, ◌<◌, ◌≤◌, pos, neg_ℤ, ◌≤ℤ◌, unsigned_abs};
ghost use Rattle.fixed_math.specs.Powers.{part, multiplied, fraction, mantissa, ex, logarithm, IsLogarithm};
ghost use Rattle.fixed_math.specs.Octave.{IsOctave, IsPlace};

/// The steps of an octave.
const OCTAVE: usize = 1024;

// 2 to the power 1 / 2^k (Q60).
const PARTS: [u64; 11] = [
    2_305_843_009_213_693_952,
    1_630_477_228_166_597_776,
    1_371_062_456_318_104_877,
    1_257_269_815_929_830_108,
    1_203_965_700_457_697_122,
    1_178_167_198_179_750_970,
    1_165_475_996_665_667_821,
    1_159_181_754_367_685_996,
    1_156_047_391_917_129_429,
    1_154_483_390_303_177_193,
    1_153_702_183_144_312_516,
];

/// The powers of two of an octave (Q60).
#[derive(Drop)]
pub struct Exp {
    powers: [u64; OCTAVE],
    ghost is_octave: { IsOctave powers },
}

impl Exp {
    /// Makes the table: the powers of two of an octave.
    pub fn new() -> Exp
        ensures { IsOctave result.powers }
    {
        let mut powers = [0u64; OCTAVE];
        for f in 0..OCTAVE {
            powers[f] = power_of(f as u32);
        }
        Exp { powers }
    }

    /// 2 to the power `f / 1024` (Q30).
    pub fn mant(&self, f: u32) -> u32
        requires { f < 1024 }
        ensures value { result ≡ mantissa f }
        ensures low { 2 ^ 30 ≤ result }
        ensures high { result < 2 ^ 31 }
    {
        (self.powers[f as usize] >> 30) as u32
    }

    /// 2 to the power `e / 1024` (Q30), rounded down, for `e` up to 0.
    pub fn ex(&self, e: i32) -> u32
        requires low { neg_ℤ (pos (2 ^ 17)) ≤ℤ e }
        requires high { e ≤ℤ pos 0 }
        ensures value { result ≡ ex (unsigned_abs e) }
        ensures most { result ≤ 2 ^ 30 }
    {
        let down = e.unsigned_abs();
        let octaves = down.div_ceil(1024);
        if octaves > 31 {
            return 0;
        }
        self.mant(octaves * 1024 - down) >> octaves
    }

    /// The greatest e for which 2 to the power `e / 1024`, rounded down, is at most `v`.
    pub fn lg(&self, v: u64) -> i32
        requires some { 1 ≤ v }
        requires size { v < 2 ^ 60 }
        ensures { result ≡ pos (logarithm v) }
    {
        let octave = 63 - v.leading_zeros();
        let place = self.last_below((v + 1) << (60 - octave));
        (octave * 1024 + place) as i32
    }

    // The last place whose power is below the limit, by halving the octave.
    fn last_below(&self, limit: u64) -> u32
        requires { 2 ^ 60 < limit }
        ensures { IsPlace limit result }
    {
        let mut low: u32 = 0;
        for k in (0..10u32).rev() {
            let middle = low + (1 << k);
            if self.powers[middle as usize] < limit {
                low = middle;
            }
        }
        low
    }
}

// 2 to the power `f / 1024` (Q60): the product of the parts of the bits of `f`, the highest first.
fn power_of(f: u32) -> u64
    requires { f < 1024 }
    ensures { result ≡ fraction f }
{
    let mut q: u64 = 1 << 60;
    for k in 0..10u32 {
        q = times((f >> (9 - k)) % 2, q, PARTS[k as usize + 1]);
    }
    q
}

// `q * p` (Q60) where the bit is 1, else `q`.
fn times(bit: u32, q: u64, p: u64) -> u64
    requires factor { q < 2 ^ 61 }
    requires size { p < 2 ^ 61 }
    ensures { result ≡ multiplied bit q p }
{
    if bit == 0 {
        q
    } else {
        ((q as u128 * p as u128) >> 60) as u64
    }
}

/// An octave's powers rise.
pub fn law_mantissa(f: u32, g: u32)
    requires { g < 1024 }
    ensures { f < g → mantissa f < mantissa g }
{}

/// An octave down halves the power; it is 1 at 0 and never rises on the way down.
pub fn law_ex(d: u64, down: u64)
    requires { d ≤ down }
    ensures start { ex 0 ≡ 2 ^ 30 }
    ensures octave { ex (d + 1024) ≡ ex d / 2 }
    ensures falls { ex down ≤ ex d }
{}

/// `logarithm` is the greatest number whose power of two is at most `v`, and never falls.
pub fn law_logarithm(v: u64, w: u64)
    requires some { 1 ≤ v }
    requires order { v ≤ w }
    requires size { w < 2 ^ 60 }
    ensures greatest { IsLogarithm v (logarithm v) }
    ensures rises { logarithm v ≤ logarithm w }
{}
