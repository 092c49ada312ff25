use crate::order::Order;
use crate::search::find;
use crate::voids::void;
use slots::List;
use terms::Side;

fn order(number: u32, account: u8) -> Order {
    Order {
        number,
        account,
        side: Side::Buy,
        price: 0,
        quantity: 1,
        cut: false,
    }
}

#[test]
fn finds_and_voids(rt: HostRuntime) {
    let mut slots = [order(0, 0); 4];
    let mut orders = List::new(&mut slots, 4096);
    for (number, account) in [(1, 3), (2, 255), (4, 3), (7, 9)] {
        assert!(rt; orders.append(order(number, account)).is_ok());
    }
    assert_eq!(rt; find(orders.as_slice(), 4), Some(2));
    assert_eq!(rt; find(orders.as_slice(), 3), None, "no order has the number");
    let mut marked = [false; 256];
    marked[3] = true;
    void(&mut orders, &marked);
    assert!(rt; orders.len() == 2);
    assert_eq!(rt; orders.get(0).number, 2);
    assert_eq!(rt; orders.get(1).number, 7);
    assert_eq!(rt; find(orders.as_slice(), 4), None);
    assert_eq!(rt; find(orders.as_slice(), 7), Some(1));
}

#[test]
fn no_slots(rt: HostRuntime) {
    let mut slots = [order(0, 0); 0];
    let mut orders = List::new(&mut slots, 4096);
    assert_eq!(rt; find(orders.as_slice(), 0), None);
    void(&mut orders, &[true; 256]);
    assert_eq!(rt; orders.len(), 0);
}
