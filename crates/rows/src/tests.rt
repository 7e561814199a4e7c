// What the functions answer on examples.
use crate::OutOfWidth;
use crate::guard::scales_in_width;
use crate::pivot::Pivot;
use crate::scale::Scale;

#[test]
fn row_rewritten(rt: HostRuntime) {
    let scale = Scale { by: 2, divisor: 1 };
    let mut row = [3, 5, -4];
    assert!(rt; scale.rewrite_row(&mut row, &[2, 1, 2], 0) == Ok(()));
    assert!(rt; row == [0, 7, -14]);
    assert!(rt; scale.rewrite_row(&mut [0, 134_217_727], &[2, 1], 0) == Err(OutOfWidth));
}

#[test]
fn row_scaled(rt: HostRuntime) {
    let mut row = [3, -6];
    assert!(rt; Scale { by: 2, divisor: 3 }.scale_row(&mut row) == Ok(()));
    assert!(rt; row == [2, -4]);
    assert!(rt; Scale { by: 2, divisor: 1 }.scale_row(&mut [134_217_727]) == Err(OutOfWidth));
}

#[test]
fn rows_rewritten_but_one(rt: HostRuntime) {
    let mut words = [2, 1, 1, 3, -4, 5];
    assert!(rt; Scale { by: 1, divisor: 1 }.rewrite_rows(&mut words, 3, &[1, 3], 1, 0) == Ok(()));
    assert!(rt; words == [0, -5, 1, 3, 0, 17]);
}

const PLACE: Pivot = Pivot {
    width: 4,
    rows: 2,
    first_column: 2,
    row: 1,
    column: 1,
    denominator: 2,
};

#[test]
fn divisor_of_numerators(rt: HostRuntime) {
    let words = [2, 1, 1, 0, 0, 5, -1, 2, 0, -1, 3, 0];
    assert!(rt; PLACE.divisor(&words) == 2);
}

#[test]
fn whole_pivot(rt: HostRuntime) {
    let mut words = [2, 1, 1, 0, 0, 5, -1, 2, 0, -1, 3, 0];
    assert!(rt; PLACE.exchange(&mut words, 3) == Ok(5));
    assert!(rt; words == [5, 0, 3, -1, 0, 5, -1, 2, 0, 0, 7, 1]);
}

#[test]
fn words_put_back(rt: HostRuntime) {
    let mut words = [1, 100_000_000];
    assert!(rt; !scales_in_width(&mut words, Scale { by: 2, divisor: 1 }));
    assert!(rt; scales_in_width(&mut words, Scale { by: 2, divisor: 2 }));
    assert!(rt; words == [1, 100_000_000]);
}
