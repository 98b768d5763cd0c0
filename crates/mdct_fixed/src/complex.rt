//! Complex numbers of whole parts, and their turns by angles whose cosine and sine are Q15. A part of a turned number is
//! one sum of two products, rounded once.
ghost use Rattle.std.specs.Prelude.{◌≡◌, ℕ, ◌^◌, ◌<◌, ◌≤◌, ◌*◌, ◌+ℤ◌, ◌-ℤ◌, ◌*ℤ◌, neg_ℤ, unsigned_abs, length};
ghost use Rattle.fixed_math.specs.Rounding.{rounded};
ghost use Rattle.mdct_fixed.specs.Numbers.{plus, product, spun, swapped, turned, IsWithin, at, angle_at, IsSmall, IsPut};

use fixed_math::Trig;

/// A complex number, in the scale of its list.
#[derive(Clone, Copy)]
pub struct Complex {
    /// The real part.
    pub re: i64,
    /// The imaginary part.
    pub im: i64,
}

/// The cosine and sine of an angle (Q15).
#[derive(Clone, Copy)]
pub struct Angle {
    /// The cosine.
    pub cosine: i64,
    /// The sine.
    pub sine: i64,
}

/// A number turned by an angle, and by that and one, two and three quarters of the circle more.
#[derive(Clone, Copy)]
pub struct QuarterTurns {
    /// Turned by the angle.
    pub none: Complex,
    /// One quarter more.
    pub one: Complex,
    /// Two quarters more.
    pub two: Complex,
    /// Three quarters more.
    pub three: Complex,
}

/// The first parts of a number turned by an angle forwards and backwards.
#[derive(Clone, Copy)]
pub struct BothWays {
    /// Turned by the angle.
    pub ahead: i64,
    /// Turned by the angle backwards.
    pub behind: i64,
}

/// The cosine and sine of `a`, 15360 to the circle.
pub fn angle_of(trig: &Trig, a: u32) -> Angle
    requires { a < 15360 }
    ensures value { result ≡ angle_at a }
    ensures small { IsSmall result }
{
    Angle {
        cosine: trig.cos(a),
        sine: trig.sin(a),
    }
}

/// An angle of the first quarter of the circle, in a form that shows it.
pub fn in_first_quarter(a: u32) -> u32
    requires { a < 3840 }
    ensures { result ≡ a }
{
    if a < 3840 { a } else { 3839 }
}

/// The item at place `i` of two lists of parts.
pub fn get(re: &[i64], im: &[i64], i: usize) -> Complex
    requires re_place { i < length re.now }
    requires im_place { i < length im.now }
    ensures { result ≡ at re.now im.now i }
{
    Complex {
        re: re[i],
        im: im[i],
    }
}

/// Puts an item to place `i`.
pub fn put(re: &mut [i64], im: &mut [i64], i: usize, z: Complex)
    requires re_place { i < length re.old }
    requires im_place { i < length im.old }
    ensures { IsPut i z (at re.old im.old) (at re.new im.new) }
{
    re[i] = z.re;
    im[i] = z.im;
}

// The parts of a turned number before they are rounded.
fn products(z: Complex, w: Angle) -> Complex
    requires within { IsWithin (2 ^ 46) z }
    requires small { IsSmall w }
    ensures value { result ≡ product z w.cosine w.sine }
    ensures size { IsWithin (2 ^ 62) result }
{
    Complex {
        re: z.re * w.cosine + z.im * w.sine,
        im: z.im * w.cosine - z.re * w.sine,
    }
}

// Parts over 2^15, rounded to the nearest whole numbers, halves upwards.
fn nearest(p: Complex) -> Complex
    requires { IsWithin (2 ^ 62) p }
    ensures re { result.re ≡ rounded p.re 15 }
    ensures im { result.im ≡ rounded p.im 15 }
{
    Complex {
        re: (p.re + (1 << 14)) >> 15,
        im: (p.im + (1 << 14)) >> 15,
    }
}

// The same of the negated parts. What is halfway rounds the other way, so it is not the negated number.
fn nearest_negated(p: Complex) -> Complex
    requires { IsWithin (2 ^ 62) p }
    ensures re { result.re ≡ rounded (neg_ℤ p.re) 15 }
    ensures im { result.im ≡ rounded (neg_ℤ p.im) 15 }
{
    Complex {
        re: -((p.re + ((1 << 14) - 1)) >> 15),
        im: -((p.im + ((1 << 14) - 1)) >> 15),
    }
}

/// `z` turned by an angle.
pub fn turn(z: Complex, w: Angle) -> Complex
    requires within { IsWithin (2 ^ 46) z }
    requires small { IsSmall w }
    ensures value { result ≡ spun z w.cosine w.sine }
    ensures size { IsWithin (2 ^ 48) result }
{
    nearest(products(z, w))
}

/// `z` turned by an angle, and by one, two and three quarters of the circle more: all four from the same products.
pub fn quarter_turns(z: Complex, w: Angle) -> QuarterTurns
    requires within { IsWithin (2 ^ 46) z }
    requires small { IsSmall w }
    ensures none { result.none ≡ spun z w.cosine w.sine }
    ensures one { result.one ≡ spun z (neg_ℤ w.sine) w.cosine }
    ensures two { result.two ≡ spun z (neg_ℤ w.cosine) (neg_ℤ w.sine) }
    ensures three { result.three ≡ spun z w.sine (neg_ℤ w.cosine) }
    ensures none_size { IsWithin (2 ^ 48) result.none }
    ensures one_size { IsWithin (2 ^ 48) result.one }
    ensures two_size { IsWithin (2 ^ 48) result.two }
    ensures three_size { IsWithin (2 ^ 48) result.three }
{
    let p = products(z, w);
    let up = nearest(p);
    let down = nearest_negated(p);
    QuarterTurns {
        none: up,
        one: Complex {
            re: up.im,
            im: down.re,
        },
        two: down,
        three: Complex {
            re: down.im,
            im: up.re,
        },
    }
}

/// The first parts of `z` turned by an angle forwards and backwards: both from the same products.
pub fn both_ways(z: Complex, w: Angle) -> BothWays
    requires within { IsWithin (2 ^ 46) z }
    requires small { IsSmall w }
    ensures ahead { result.ahead ≡ (spun z w.cosine w.sine).re }
    ensures behind { result.behind ≡ (spun z w.cosine (neg_ℤ w.sine)).re }
    ensures ahead_size { unsigned_abs result.ahead ≤ 2 ^ 48 }
    ensures behind_size { unsigned_abs result.behind ≤ 2 ^ 48 }
{
    let along = z.re * w.cosine + (1 << 14);
    let across = z.im * w.sine;
    BothWays {
        ahead: (along + across) >> 15,
        behind: (along - across) >> 15,
    }
}

/// The first parts of a number turned by one to four fifths of the circle.
#[derive(Clone, Copy)]
pub struct Fifths {
    /// Turned by one fifth.
    pub one: i64,
    /// By two.
    pub two: i64,
    /// By three.
    pub three: i64,
    /// By four.
    pub four: i64,
}

// A fifth of the circle.
fn one_fifth() -> Angle
    ensures value { result ≡ angle_at 3072 }
    ensures small { IsSmall result }
{
    Angle {
        cosine: 10_126,
        sine: 31_164,
    }
}

// Two fifths.
fn two_fifths() -> Angle
    ensures value { result ≡ angle_at 6144 }
    ensures small { IsSmall result }
{
    Angle {
        cosine: -26_510,
        sine: 19_261,
    }
}

/// The first parts of `z` turned by fifths of the circle.
pub fn by_fifths(z: Complex) -> Fifths
    requires { IsWithin (2 ^ 46) z }
    ensures one { result.one ≡ (turned z 3072).re }
    ensures two { result.two ≡ (turned z 6144).re }
    ensures three { result.three ≡ (turned z 9216).re }
    ensures four { result.four ≡ (turned z 12288).re }
    ensures one_size { unsigned_abs result.one ≤ 2 ^ 48 }
    ensures two_size { unsigned_abs result.two ≤ 2 ^ 48 }
    ensures three_size { unsigned_abs result.three ≤ 2 ^ 48 }
    ensures four_size { unsigned_abs result.four ≤ 2 ^ 48 }
{
    let outer = both_ways(z, one_fifth());
    let inner = both_ways(z, two_fifths());
    Fifths {
        one: outer.ahead,
        two: inner.ahead,
        three: inner.behind,
        four: outer.behind,
    }
}

/// A number turned by one and two thirds of the circle.
#[derive(Clone, Copy)]
pub struct ThirdTurns {
    /// Turned by one third.
    pub one: Complex,
    /// By two.
    pub two: Complex,
}

// A third of the circle.
fn one_third() -> Angle
    ensures value { result ≡ angle_at 5120 }
    ensures small { IsSmall result }
{
    Angle {
        cosine: -16_384,
        sine: 28_378,
    }
}

/// `z` turned by thirds of the circle: both from the same products.
pub fn third_turns(z: Complex) -> ThirdTurns
    requires { IsWithin (2 ^ 46) z }
    ensures one { result.one ≡ turned z 5120 }
    ensures two { result.two ≡ turned z 10240 }
    ensures one_size { IsWithin (2 ^ 48) result.one }
    ensures two_size { IsWithin (2 ^ 48) result.two }
{
    let re = both_ways(z, one_third());
    let im = both_ways(swap_parts(z), one_third());
    ThirdTurns {
        one: Complex {
            re: re.ahead,
            im: im.behind,
        },
        two: Complex {
            re: re.behind,
            im: im.ahead,
        },
    }
}

/// The parts of `z` exchanged.
pub fn swap_parts(z: Complex) -> Complex
    ensures { result ≡ swapped z }
{
    Complex { re: z.im, im: z.re }
}

/// The sum of two.
pub fn add(a: Complex, b: Complex) -> Complex
    requires a_size { IsWithin (2 ^ 60) a }
    requires b_size { IsWithin (2 ^ 60) b }
    ensures value { result ≡ plus a b }
    ensures size { IsWithin (2 ^ 61) result }
{
    Complex {
        re: a.re + b.re,
        im: a.im + b.im,
    }
}
