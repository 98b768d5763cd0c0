//! The small kernels that the signal crates share: a step of the noise (RFC 6716, section 4.3.4),
//! products that are rounded to the nearest whole number, and the turn of a pair.
ghost use Rattle.std.specs.Prelude.{◌≡◌, ℕ, ◌+◌, ◌-◌, ◌*◌, ◌^◌, ◌<◌, ◌≤◌, pos, ◌+ℤ◌, ◌*ℤ◌, ◌≤ℤ◌, ◌<ℤ◌, unsigned_abs};
ghost use Rattle.fixed_math.specs.Rounding.{rounded, noise_after};

/// The noise's next state after `seed`.
pub fn noise(seed: u32) -> u32
    ensures { result ≡ noise_after seed }
{
    seed.wrapping_mul(1_664_525).wrapping_add(1_013_904_223)
}

/// `a * b / 2^s`, rounded to the nearest whole number, halves upwards.
pub fn mulr(a: i64, b: i64, s: u32) -> i64
    requires shift { (1 ≤ s) × (s ≤ 62) }
    requires product { unsigned_abs (a *ℤ b) < 2 ^ 62 }
    ensures value { result ≡ rounded (a *ℤ b) s }
    ensures size { (m n k : ℕ) → unsigned_abs a ≤ m → unsigned_abs b ≤ n → m * n ≤ k * 2 ^ s → unsigned_abs result ≤ k }
{
    (a * b + (1 << (s - 1))) >> s
}

/// `(x * c + y * s) / 2^15`, rounded to the nearest whole number, halves upwards: one number of the pair
/// (x, y) after a turn, where c and s are Q15.
pub fn rounded_sum(x: i64, c: i64, y: i64, s: i64) -> i64
    requires first { unsigned_abs (x *ℤ c) ≤ 2 ^ 61 }
    requires second { unsigned_abs (y *ℤ s) ≤ 2 ^ 61 }
    ensures value { result ≡ rounded (x *ℤ c +ℤ y *ℤ s) 15 }
    ensures growth { (m : ℕ) → unsigned_abs x ≤ m → unsigned_abs y ≤ m → unsigned_abs c ≤ 2 ^ 15 → unsigned_abs s ≤ 2 ^ 15 → unsigned_abs result ≤ 2 * m }
{
    (x * c + y * s + (1 << 14)) >> 15
}

/// `rounded` is the whole number nearest to `z / 2^s`, the greater one of two.
pub fn law_rounded(z: i64, s: u32)
    requires { 1 ≤ s }
    ensures low { (pos (2 ^ s) *ℤ rounded z s) ≤ℤ (z +ℤ pos (2 ^ (s - 1))) }
    ensures high { z <ℤ (pos (2 ^ s) *ℤ rounded z s +ℤ pos (2 ^ (s - 1))) }
{}
