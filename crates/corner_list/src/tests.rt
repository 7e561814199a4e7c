// Lookups in short lists.
use crate::corner::Corner;
use crate::lists::lists;
use crate::outside::outside;

#[test]
fn limits_outside_one_and_three(rt: HostRuntime) {
    assert!(rt; outside(0b101, 5, 0) == Some(1));
    assert!(rt; outside(0b101, 5, 1) == Some(3));
    assert!(rt; outside(0b101, 5, 2) == Some(4));
    assert!(rt; outside(0b101, 5, 3).is_none());
}

#[test]
fn masks_are_listed(rt: HostRuntime) {
    let blank = Corner::default();
    let corners = [
        blank,
        Corner {
            mask: 0b101,
            ..blank
        },
    ];
    assert!(rt; lists(&corners, 0b101));
    assert!(rt; !lists(&corners, 0b011));
}
