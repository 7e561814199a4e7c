// What the functions answer on examples.
use crate::bounds::in_width;
use crate::divisors::divisor;
use crate::order::{compare, leading_sign};
use crate::vectors::dot;
use std::cmp::Ordering;

#[test]
fn width_is_symmetric(rt: HostRuntime) {
    assert!(rt; in_width(134_217_727) && in_width(-134_217_727));
    assert!(rt; !in_width(134_217_728) && !in_width(-134_217_728));
}

#[test]
fn products_add_up(rt: HostRuntime) {
    assert!(rt; dot(&[1, -2, 3], &[4, 5, 6]) == 12);
}

#[test]
fn lists_in_order(rt: HostRuntime) {
    assert!(rt; leading_sign(&[0, -3, 5]) == Ordering::Less);
    assert!(rt; compare(&[1, 2], 2, &[2, 5], 4) == Ordering::Less);
}

#[test]
fn divisor_of_all(rt: HostRuntime) {
    assert!(rt; divisor(12, &[18, -30]) == 6);
    assert!(rt; divisor(7, &[0, 3, 14]) == 1);
}
