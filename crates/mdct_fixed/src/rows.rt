//! Rows of a join (RFC 6716, section 4.3.7): in place, one item of each of r runs becomes r items of the joined run.
ghost use Rattle.std.specs.Prelude.{◌≡◌, ℕ, ◌+◌, ◌*◌, ◌^◌, ◌<◌, ◌≤◌, ◌+ℤ◌, unsigned_abs, length};
ghost use Rattle.mdct_fixed.specs.Numbers.{at, plus, spun, turned, swapped, IsWithin, IsSmall};
ghost use Rattle.mdct_fixed.specs.Rows.{AreFourWithin, AreThreeSmall, AreThreeAngles, AreFourSums, IsAngle, AreTwoSmall, AreTwoAngles, AreSixSmall, AreSixAngles, AreFiveWithin, AreFiveSums, ArePartsWithin, IsRowJoined};

use crate::complex::{
    Angle, Complex, add, by_fifths, get, put, quarter_turns, swap_parts, third_turns, turn,
};

/// The items of a row of radix 4.
#[derive(Clone, Copy)]
pub struct Four {
    /// The item of the first run.
    pub first: Complex,
    /// Of the second.
    pub second: Complex,
    /// Of the third.
    pub third: Complex,
    /// Of the fourth.
    pub fourth: Complex,
}

/// The angles of a row of radix 4: those of the runs behind the first.
#[derive(Clone, Copy)]
pub struct ThreeAngles {
    /// The second run's.
    pub second: Angle,
    /// Twice that.
    pub third: Angle,
    /// Three times.
    pub fourth: Angle,
}

// The joined items of a row of radix 4. The angles of one run differ by quarters of the circle.
fn four_sums(y: Four, w: &ThreeAngles) -> Four
    requires within { AreFourWithin (2 ^ 46) y }
    requires small { AreThreeSmall w.now }
    ensures { AreFourSums y w.now result }
{
    let third = quarter_turns(y.third, w.third);
    let even = add(y.first, third.none);
    let odd = add(y.first, third.two);
    let second = quarter_turns(y.second, w.second);
    let fourth = quarter_turns(y.fourth, w.fourth);
    Four {
        first: add_two(even, second.none, fourth.none),
        second: add_two(odd, second.one, fourth.three),
        third: add_two(even, second.two, fourth.two),
        fourth: add_two(odd, second.three, fourth.one),
    }
}

// The sum of three.
fn add_two(a: Complex, b: Complex, c: Complex) -> Complex
    requires a_size { IsWithin (2 ^ 61) a }
    requires b_size { IsWithin (2 ^ 60) b }
    requires c_size { IsWithin (2 ^ 60) c }
    ensures { result ≡ plus (plus a b) c }
{
    Complex {
        re: a.re + b.re + c.re,
        im: a.im + b.im + c.im,
    }
}

/// Joins the row of radix 4 at `p`; the items of a row stand `m` places apart.
pub fn row_4(re: &mut [i64], im: &mut [i64], p: usize, m: usize, w: &ThreeAngles)
    requires one_length { length re.old ≡ length im.old }
    requires apart { 0 < m }
    requires room { p + 3 * m < length re.old }
    requires within { (q : ℕ) → q < 4 → IsWithin (2 ^ 46) (at re.old im.old (p + q * m)) }
    requires small { AreThreeSmall w.now }
    ensures { (a : ℕ) → AreThreeAngles a w.now → IsRowJoined 4 m p a (at re.old im.old) (at re.new im.new) }
{
    let y = Four {
        first: get(re, im, p),
        second: get(re, im, p + m),
        third: get(re, im, p + 2 * m),
        fourth: get(re, im, p + 3 * m),
    };
    let z = four_sums(y, w);
    put(re, im, p, z.first);
    put(re, im, p + m, z.second);
    put(re, im, p + 2 * m, z.third);
    put(re, im, p + 3 * m, z.fourth);
}

/// Joins the row of radix 2 at `p`: the second item's angle is `w`, and half of the circle more.
pub fn row_2(re: &mut [i64], im: &mut [i64], p: usize, m: usize, w: Angle)
    requires one_length { length re.old ≡ length im.old }
    requires apart { 0 < m }
    requires room { p + m < length re.old }
    requires within { (q : ℕ) → q < 2 → IsWithin (2 ^ 46) (at re.old im.old (p + q * m)) }
    requires small { IsSmall w }
    ensures { (a : ℕ) → IsAngle a w → IsRowJoined 2 m p a (at re.old im.old) (at re.new im.new) }
{
    let first = get(re, im, p);
    let second = quarter_turns(get(re, im, p + m), w);
    put(re, im, p, add(first, second.none));
    put(re, im, p + m, add(first, second.two));
}

/// The angles of one item of a row of radix 3: those of the runs behind the first.
#[derive(Clone, Copy)]
pub struct TwoAngles {
    /// The second run's.
    pub second: Angle,
    /// Twice that.
    pub third: Angle,
}

/// The angles of a row of radix 3. Those of one run differ by thirds of the circle.
#[derive(Clone, Copy)]
pub struct SixAngles {
    /// The first item's.
    pub first: TwoAngles,
    /// The second's.
    pub second: TwoAngles,
    /// The third's.
    pub third: TwoAngles,
}

// One joined item of a row of radix 3.
fn three_turned(x: Complex, y: Complex, z: Complex, w: TwoAngles) -> Complex
    requires x_within { IsWithin (2 ^ 46) x }
    requires y_within { IsWithin (2 ^ 46) y }
    requires z_within { IsWithin (2 ^ 46) z }
    requires small { AreTwoSmall w }
    ensures { result ≡ plus (plus x (spun y w.second.cosine w.second.sine)) (spun z w.third.cosine w.third.sine) }
{
    add_two(x, turn(y, w.second), turn(z, w.third))
}

/// Joins the row of radix 3 at `p`.
pub fn row_3(re: &mut [i64], im: &mut [i64], p: usize, m: usize, w: &SixAngles)
    requires one_length { length re.old ≡ length im.old }
    requires apart { 0 < m }
    requires room { p + 2 * m < length re.old }
    requires within { (q : ℕ) → q < 3 → IsWithin (2 ^ 46) (at re.old im.old (p + q * m)) }
    requires small { AreSixSmall w.now }
    ensures { (a : ℕ) → AreSixAngles a w.now → IsRowJoined 3 m p a (at re.old im.old) (at re.new im.new) }
{
    let x = get(re, im, p);
    let y = get(re, im, p + m);
    let z = get(re, im, p + 2 * m);
    let first = three_turned(x, y, z, w.first);
    let second = three_turned(x, y, z, w.second);
    let third = three_turned(x, y, z, w.third);
    put(re, im, p, first);
    put(re, im, p + m, second);
    put(re, im, p + 2 * m, third);
}

/// Joins the row of radix 3 at `p` that is first in its run, so that all its angles are thirds of the circle.
pub fn row_thirds(re: &mut [i64], im: &mut [i64], p: usize, m: usize)
    requires one_length { length re.old ≡ length im.old }
    requires apart { 0 < m }
    requires room { p + 2 * m < length re.old }
    requires within { (q : ℕ) → q < 3 → IsWithin (2 ^ 46) (at re.old im.old (p + q * m)) }
    ensures { IsRowJoined 3 m p 0 (at re.old im.old) (at re.new im.new) }
{
    let x = get(re, im, p);
    let y = get(re, im, p + m);
    let z = get(re, im, p + 2 * m);
    let second = third_turns(y);
    let third = third_turns(z);
    put(re, im, p, add_two(x, y, z));
    put(re, im, p + m, add_two(x, second.one, third.two));
    put(re, im, p + 2 * m, add_two(x, second.two, third.one));
}

/// The items of a row of radix 5.
#[derive(Clone, Copy)]
pub struct Five {
    /// The item of the first run.
    pub first: Complex,
    /// Of the second.
    pub second: Complex,
    /// Of the third.
    pub third: Complex,
    /// Of the fourth.
    pub fourth: Complex,
    /// Of the fifth.
    pub fifth: Complex,
}

/// The first parts of the joined items of a row of radix 5, but for the first.
#[derive(Clone, Copy)]
pub struct Parts {
    /// The second item's.
    pub second: i64,
    /// The third's.
    pub third: i64,
    /// The fourth's.
    pub fourth: i64,
    /// The fifth's.
    pub fifth: i64,
}

/// Five numbers to be added.
#[derive(Clone, Copy)]
pub struct Terms {
    /// The first.
    pub first: i64,
    /// The second.
    pub second: i64,
    /// The third.
    pub third: i64,
    /// The fourth.
    pub fourth: i64,
    /// The fifth.
    pub fifth: i64,
}

// Their sum.
fn added(t: Terms) -> i64
    requires first { unsigned_abs t.first ≤ 2 ^ 48 }
    requires second { unsigned_abs t.second ≤ 2 ^ 48 }
    requires third { unsigned_abs t.third ≤ 2 ^ 48 }
    requires fourth { unsigned_abs t.fourth ≤ 2 ^ 48 }
    requires fifth { unsigned_abs t.fifth ≤ 2 ^ 48 }
    ensures { result ≡ t.first +ℤ t.second +ℤ t.third +ℤ t.fourth +ℤ t.fifth }
{
    t.first + t.second + t.third + t.fourth + t.fifth
}

// Parts with one term more each.
fn more(p: Parts, second: i64, third: i64, fourth: i64, fifth: i64) -> Parts
    requires parts { ArePartsWithin (2 ^ 52) p }
    requires second { unsigned_abs second ≤ 2 ^ 48 }
    requires third { unsigned_abs third ≤ 2 ^ 48 }
    requires fourth { unsigned_abs fourth ≤ 2 ^ 48 }
    requires fifth { unsigned_abs fifth ≤ 2 ^ 48 }
    ensures second { result.second ≡ p.second +ℤ second }
    ensures third { result.third ≡ p.third +ℤ third }
    ensures fourth { result.fourth ≡ p.fourth +ℤ fourth }
    ensures fifth { result.fifth ≡ p.fifth +ℤ fifth }
    ensures within { (n : ℕ) → ArePartsWithin n p → ArePartsWithin (n + 2 ^ 48) result }
{
    Parts {
        second: p.second + second,
        third: p.third + third,
        fourth: p.fourth + fourth,
        fifth: p.fifth + fifth,
    }
}

// The first parts of the joined items behind the first.
fn five_parts(y: Five) -> Parts
    requires { AreFiveWithin (2 ^ 46) y }
    ensures second { result.second ≡ y.first.re +ℤ (turned y.second 3072).re +ℤ (turned y.third 6144).re +ℤ (turned y.fourth 9216).re +ℤ (turned y.fifth 12288).re }
    ensures third { result.third ≡ y.first.re +ℤ (turned y.second 6144).re +ℤ (turned y.third 12288).re +ℤ (turned y.fourth 3072).re +ℤ (turned y.fifth 9216).re }
    ensures fourth { result.fourth ≡ y.first.re +ℤ (turned y.second 9216).re +ℤ (turned y.third 3072).re +ℤ (turned y.fourth 12288).re +ℤ (turned y.fifth 6144).re }
    ensures fifth { result.fifth ≡ y.first.re +ℤ (turned y.second 12288).re +ℤ (turned y.third 9216).re +ℤ (turned y.fourth 6144).re +ℤ (turned y.fifth 3072).re }
{
    let x = y.first.re;
    let start = Parts {
        second: x,
        third: x,
        fourth: x,
        fifth: x,
    };
    let a = by_fifths(y.second);
    let one = more(start, a.one, a.two, a.three, a.four);
    let b = by_fifths(y.third);
    let two = more(one, b.two, b.four, b.one, b.three);
    let c = by_fifths(y.fourth);
    let three = more(two, c.three, c.one, c.four, c.two);
    let d = by_fifths(y.fifth);
    more(three, d.four, d.three, d.two, d.one)
}

// The first of the joined items: the sum of all.
fn five_added(y: Five) -> Complex
    requires { AreFiveWithin (2 ^ 46) y }
    ensures { result ≡ plus (plus (plus (plus y.first y.second) y.third) y.fourth) y.fifth }
{
    Complex {
        re: added(Terms {
            first: y.first.re,
            second: y.second.re,
            third: y.third.re,
            fourth: y.fourth.re,
            fifth: y.fifth.re,
        }),
        im: added(Terms {
            first: y.first.im,
            second: y.second.im,
            third: y.third.im,
            fourth: y.fourth.im,
            fifth: y.fifth.im,
        }),
    }
}

// All parts exchanged.
fn swap_five(y: Five) -> Five
    ensures first { result.first ≡ swapped y.first }
    ensures second { result.second ≡ swapped y.second }
    ensures third { result.third ≡ swapped y.third }
    ensures fourth { result.fourth ≡ swapped y.fourth }
    ensures fifth { result.fifth ≡ swapped y.fifth }
{
    Five {
        first: swap_parts(y.first),
        second: swap_parts(y.second),
        third: swap_parts(y.third),
        fourth: swap_parts(y.fourth),
        fifth: swap_parts(y.fifth),
    }
}

// The joined items of a row of radix 5. The second parts are the first ones of the exchanged items, turned backwards.
fn five_sums(y: Five) -> Five
    requires { AreFiveWithin (2 ^ 46) y }
    ensures { AreFiveSums y result }
{
    let re = five_parts(y);
    let im = five_parts(swap_five(y));
    Five {
        first: five_added(y),
        second: Complex {
            re: re.second,
            im: im.fifth,
        },
        third: Complex {
            re: re.third,
            im: im.fourth,
        },
        fourth: Complex {
            re: re.fourth,
            im: im.third,
        },
        fifth: Complex {
            re: re.fifth,
            im: im.second,
        },
    }
}

/// Joins the row of radix 5 at `p`, where a run holds one item and the angles are fifths of the circle.
pub fn row_5(re: &mut [i64], im: &mut [i64], p: usize, m: usize)
    requires one_length { length re.old ≡ length im.old }
    requires apart { 0 < m }
    requires room { p + 4 * m < length re.old }
    requires within { (q : ℕ) → q < 5 → IsWithin (2 ^ 46) (at re.old im.old (p + q * m)) }
    ensures { IsRowJoined 5 m p 0 (at re.old im.old) (at re.new im.new) }
{
    let y = Five {
        first: get(re, im, p),
        second: get(re, im, p + m),
        third: get(re, im, p + 2 * m),
        fourth: get(re, im, p + 3 * m),
        fifth: get(re, im, p + 4 * m),
    };
    let z = five_sums(y);
    put(re, im, p, z.first);
    put(re, im, p + m, z.second);
    put(re, im, p + 2 * m, z.third);
    put(re, im, p + 3 * m, z.fourth);
    put(re, im, p + 4 * m, z.fifth);
}
