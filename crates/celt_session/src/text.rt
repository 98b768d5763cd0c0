//! Numbers that are written as text, into a slice.
ghost use Rattle.std.specs.Prelude.{◌+◌, ◌++◌, ◌<◌, ◌≤◌, ◌≡◌, ◌∷◌, [], length, take, drop};
ghost use Rattle.std.specs.Fmt.{decimal};
ghost use Rattle.celt_session.specs.Texts.{hex_digit as digit_of, hex_digits, IsPut};

/// Puts a byte at a place, and answers the place behind it.
pub fn put_byte(out: &mut [u8], at: usize, byte: u8) -> usize
    requires { at < length out.old }
    ensures { IsPut out.old out.new at result (byte ∷ []) }
{
    out[at] = byte;
    at + 1
}

/// Copies bytes into place, and answers the place behind them.
fn put(out: &mut [u8], at: usize, bytes: &[u8]) -> usize
    requires { at + length bytes.now ≤ length out.old }
    ensures next { result ≡ at + length bytes.now }
    ensures written { out.new ≡ take at out.old ++ (bytes.now ++ drop result out.old) }
{
    let end = at + bytes.len();
    out[at..end].copy_from_slice(bytes);
    end
}

/// Puts text at a place, and answers the place behind it.
pub fn put_text(out: &mut [u8], at: usize, text: &[u8]) -> usize
    requires { at + length text.now ≤ length out.old }
    ensures { IsPut out.old out.new at result text.now }
{
    put(out, at, text)
}

/// Puts the decimal digits of a number at a place, and answers the place behind them.
pub fn put_decimal(out: &mut [u8], at: usize, number: u64) -> usize
    requires { at + length (decimal number) ≤ length out.old }
    ensures { IsPut out.old out.new at result (decimal number) }
{
    if number < 10 {
        return put_byte(out, at, b'0' + number as u8);
    }
    let end = put_decimal(out, at, number / 10);
    put_byte(out, end, b'0' + (number % 10) as u8)
}

/// A hexadecimal digit, in lower case.
fn hex_digit(number: u32) -> u8
    requires { number < 16 }
    ensures { result ≡ digit_of number }
{
    if number < 10 {
        b'0' + number as u8
    } else {
        b'a' + (number - 10) as u8
    }
}

/// Puts so many hexadecimal digits of a number at a place, and answers the place behind them.
pub fn put_hex(out: &mut [u8], at: usize, count: usize, number: u32) -> usize
    requires { at + count ≤ length out.old }
    ensures { IsPut out.old out.new at result (hex_digits count number) }
{
    if count == 0 {
        return at;
    }
    let end = put_hex(out, at, count - 1, number / 16);
    put_byte(out, end, hex_digit(number % 16))
}
