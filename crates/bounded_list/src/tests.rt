// Lists over small arrays.
use crate::List;

#[test]
fn fills_and_refuses(rt: HostRuntime) {
    let mut items = [0; 2];
    let mut list = List::new(&mut items);
    assert!(rt; list.push(7).is_ok());
    assert!(rt; !list.is_full());
    assert!(rt; list.push(8).is_ok());
    assert!(rt; list.is_full());
    assert!(rt; matches!(list.push(9), Err(9)));
    assert!(rt; matches!(list.get(1), Some(8)));
    assert!(rt; list.get(2).is_none());
    assert!(rt; list.as_slice() == [7, 8].as_slice());
}

#[test]
fn cleared_list_starts_again(rt: HostRuntime) {
    let mut items = [1, 2, 3];
    let mut list = List::new(&mut items);
    assert!(rt; list.push(7).is_ok());
    assert!(rt; list.push(8).is_ok());
    list.clear();
    assert!(rt; list.is_empty());
    assert!(rt; list.push(9).is_ok());
    assert!(rt; list.len() == 1);
    assert!(rt; items == [9, 8, 3]);
}

#[test]
fn no_room_at_all(rt: HostRuntime) {
    let mut list: List<u32> = List::new(&mut []);
    assert!(rt; list.capacity() == 0);
    assert!(rt; list.is_empty());
    assert!(rt; list.is_full());
    assert!(rt; matches!(list.push(1), Err(1)));
}
