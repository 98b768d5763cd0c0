//! Sums over samples in a row.
ghost use Rattle.std.specs.Prelude.{◌≡◌, ℕ, ◌+◌, ◌*◌, ◌^◌, ◌<◌, ◌≤◌, All, unsigned_abs, length};
ghost use Rattle.fixed_math.specs.Items.{item};
ghost use Rattle.celt_analysis.specs.Sums.{energy, squared};

// A sample's square.
pub(crate) fn square(x: i64) -> u64
    requires { unsigned_abs x < 2 ^ 16 }
    ensures { result ≡ squared x }
{
    let size = x.unsigned_abs();
    size * size
}

// The sum of the squares of `n` samples from place `a` on.
pub(crate) fn energy_from(d: &[i64], a: usize, n: usize) -> u64
    requires items { All (λ x. unsigned_abs x < 2 ^ 16) d.now }
    requires count { n ≤ 960 }
    requires within { a + n ≤ length d.now }
    ensures { result ≡ energy (item d.now) a n }
{
    let mut sum: u64 = 0;
    for i in 0..n {
        sum += square(d[a + i]);
    }
    sum
}
