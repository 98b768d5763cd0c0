//! Values of each call that were worked out apart from this crate, from the equations that its definitions state.
use super::{haar, order, unorder};

#[test]
fn haar_steps(rt: HostRuntime) {
    let mut x = [16_384i64, 0];
    haar(&mut x, 2, 1);
    assert_eq!(rt; x, [11_585, 11_585]);
    let mut x = [11_585i64, 11_585];
    haar(&mut x, 2, 1);
    assert_eq!(rt; x, [16_384, 0]);
    let mut x = [4_194_303i64, -4_194_304];
    haar(&mut x, 2, 1);
    assert_eq!(rt; x, [-1, 5_931_519]);
    let mut x = [1000i64, -2000, 3000, 4000, 5, -6, 7, 9];
    haar(&mut x, 4, 2);
    assert_eq!(rt; x, [2828, 1414, -1414, -4242, 9, 2, -1, -10]);
    let mut x = [1i64, -1, 2, -2, 3, 3, 100_000, -100_001];
    haar(&mut x, 8, 1);
    assert_eq!(rt; x, [0, 2, 0, 2, 4, 0, -1, 141_419]);
    let mut x = [1i64, 2, 3, 4, 5, 6];
    haar(&mut x, 2, 3);
    assert_eq!(rt; x, [4, 5, 6, -2, -3, -2]);
}

#[test]
fn orders(rt: HostRuntime) {
    let mut out = [0i64; 8];
    order(&[0, 1, 2, 3, 4, 5, 6, 7], &mut out, 2, 4, true);
    assert_eq!(rt; out, [1, 5, 3, 7, 2, 6, 0, 4]);
    unorder(&[0, 1, 2, 3, 4, 5, 6, 7], &mut out, 2, 4, true);
    assert_eq!(rt; out, [6, 0, 4, 2, 7, 1, 5, 3]);
    unorder(&[0, 1, 2, 3, 4, 5, 6, 7], &mut out, 2, 4, false);
    assert_eq!(rt; out, [0, 2, 4, 6, 1, 3, 5, 7]);
    order(&[0, 1, 2, 3, 4, 5, 6, 7], &mut out, 1, 8, true);
    assert_eq!(rt; out, [1, 5, 7, 3, 2, 6, 4, 0]);
    unorder(&[0, 1, 2, 3, 4, 5, 6, 7], &mut out, 1, 8, true);
    assert_eq!(rt; out, [7, 0, 4, 3, 6, 1, 5, 2]);
    let mut out = [0i64; 6];
    order(&[0, 1, 2, 3, 4, 5], &mut out, 3, 2, false);
    assert_eq!(rt; out, [0, 2, 4, 1, 3, 5]);
    order(&[0, 1, 2, 3, 4, 5], &mut out, 3, 2, true);
    assert_eq!(rt; out, [1, 3, 5, 0, 2, 4]);
    unorder(&[0, 1, 2, 3, 4, 5], &mut out, 3, 2, true);
    assert_eq!(rt; out, [3, 0, 4, 1, 5, 2]);
    let mut out = [0i64; 12];
    let tens = [1i64, 10, 20, 30, 40, 50, 60, 70, 80, 90, 100, 110];
    order(&tens, &mut out, 3, 4, true);
    assert_eq!(rt; out, [10, 50, 90, 30, 70, 110, 20, 60, 100, 1, 40, 80]);
    unorder(&tens, &mut out, 3, 4, true);
    assert_eq!(rt; out, [90, 1, 60, 30, 100, 10, 70, 40, 110, 20, 80, 50]);
    let mut out = [0i64; 16];
    let counted = [0i64, 1, 2, 3, 4, 5, 6, 7, 8, 9, 10, 11, 12, 13, 14, 15];
    order(&counted, &mut out, 2, 8, true);
    assert_eq!(rt; out, [1, 9, 5, 13, 7, 15, 3, 11, 2, 10, 6, 14, 4, 12, 0, 8]);
    order(&counted, &mut out, 1, 16, true);
    assert_eq!(rt; out, [1, 9, 13, 5, 7, 15, 11, 3, 2, 10, 14, 6, 4, 12, 8, 0]);
    unorder(&counted, &mut out, 1, 16, true);
    assert_eq!(rt; out, [15, 0, 8, 7, 12, 3, 11, 4, 14, 1, 9, 6, 13, 2, 10, 5]);
}
