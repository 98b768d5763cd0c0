//! The logarithm of a width in eighths, which tells how many bits a coder used (RFC 6716, section 4.1.6).
ghost use Rattle.std.specs.Prelude.{◌≡◌, ◌+◌, ◌*◌, ◌^◌, ◌<◌, ◌≤◌};
ghost use Rattle.celt_base.specs.Paces.{digit_of, leading_after, eighths_from};
ghost use Rattle.celt_base.specs.Questions.{bit_length};

/// The number of bits that a number needs.
pub fn bit_length(number: u32) -> u32
    ensures { result ≡ bit_length number }
{
    32 - number.leading_zeros()
}

/// One more binary digit of the logarithm, from the leading 16 bits of a number, and the leading 16 bits of its square.
fn next_digit(leading: u32) -> (u32, u32)
    requires low { 2 ^ 15 ≤ leading }
    requires high { leading < 2 ^ 16 }
    ensures digit { result.0 ≡ digit_of leading }
    ensures one { result.0 ≤ 1 }
    ensures next { result.1 ≡ leading_after leading }
    ensures next_low { 2 ^ 15 ≤ result.1 }
    ensures next_high { result.1 < 2 ^ 16 }
{
    let square = leading * leading >> 15;
    let digit = square >> 16;
    (digit, square >> digit)
}

/// Eighths of the logarithm of a width of that many bits, from its leading 16 bits (RFC 6716, section 4.1.6.2).
pub fn eighths_from(length: u32, leading: u32) -> u32
    requires length { length ≤ 32 }
    requires low { 2 ^ 15 ≤ leading }
    requires high { leading < 2 ^ 16 }
    ensures value { result ≡ eighths_from length leading }
    ensures most { result ≤ 8 * length + 7 }
{
    let (first, second_leading) = next_digit(leading);
    let (second, third_leading) = next_digit(second_leading);
    let (third, _) = next_digit(third_leading);
    8 * length + 4 * first + 2 * second + third
}
