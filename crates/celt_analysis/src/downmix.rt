//! The samples of a window that the pitch is found in: those of the one channel, or the middle of the two.
ghost use Rattle.std.specs.Prelude.{◌≡◌, ◌⊎◌, ℕ, ◌+◌, ◌*◌, ◌<◌, ◌≤◌, ◌+ℤ◌, length};
ghost use Rattle.std.specs.Int.{int_shr};
ghost use Rattle.fixed_math.specs.Items.{item};

// The samples of each channel at the window's start that the pitch does not need.
pub(crate) const PASSED: usize = 123;

// The middle of two samples, halves downwards.
fn middle(left: i16, right: i16) -> i16
    ensures { result ≡ int_shr (left +ℤ right) 1 }
{
    ((left as i32 + right as i32) >> 1) as i16
}

// Writes the middles of two channels.
pub(crate) fn mix(window: &[i16], out: &mut [i16])
    requires { length window.now ≡ 2 * (123 + length out.old) }
    ensures items { (i : ℕ) → i < length out.old → item out.new i ≡ int_shr (item window.now (2 * (123 + i)) +ℤ item window.now (2 * (123 + i) + 1)) 1 }
    ensures length { length out.new ≡ length out.old }
{
    for i in 0..out.len() {
        out[i] = middle(window[2 * (PASSED + i)], window[2 * (PASSED + i) + 1]);
    }
}
