//! A weight as a number of three digits to the base 4095, which are at most 2047 in size.
ghost use Rattle.std.specs.Prelude.{◌≡◌, ◌^◌, ◌≤◌, pos, ◌+ℤ◌, ◌*ℤ◌, unsigned_abs};
ghost use Rattle.rate_change.specs.Digits.{joined};

/// 4095²·high + 4095·middle + low.
#[derive(Clone, Copy)]
pub struct Digits {
    pub high: i16,
    pub middle: i16,
    pub low: i16,
}

/// A quotient by 4095, rounded to the nearest whole number, and what is left.
#[derive(Clone, Copy)]
struct Quotient {
    value: i64,
    left: i64,
}

// Divides by 4095.
fn cut(w: i64) -> Quotient
    requires { unsigned_abs w ≤ 2 ^ 34 }
    ensures value { pos 4095 *ℤ result.value +ℤ result.left ≡ w }
    ensures left { unsigned_abs result.left ≤ 2047 }
{
    let value = (w + 2047).div_euclid(4095);
    Quotient {
        value,
        left: w - 4095 * value,
    }
}

/// Cuts a weight into its digits.
pub fn digits_of(w: i64) -> Digits
    requires { unsigned_abs w ≤ 2 ^ 34 }
    ensures value { joined result.high result.middle result.low ≡ w }
    ensures high { unsigned_abs result.high ≤ 2047 }
    ensures middle { unsigned_abs result.middle ≤ 2047 }
    ensures low { unsigned_abs result.low ≤ 2047 }
{
    let first = cut(w);
    let second = cut(first.value);
    Digits {
        high: second.value as i16,
        middle: second.left as i16,
        low: first.left as i16,
    }
}
