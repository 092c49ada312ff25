ghost use Rattle.std.specs.Prelude.{◌≡◌, ◌==◌, not, filter, false, slice_index_or};
ghost use Rattle.slots.specs.Items.{items};

use crate::list::List;

#[test]
fn keeps_the_order(rt: HostRuntime) {
    let mut slots = [0u32; 4];
    let mut list = List::new(&mut slots, 3);
    for x in [10, 20, 30] {
        assert_eq!(rt; list.append(x), Ok(()));
    }
    assert_eq!(rt; list.append(40), Err(40), "the limit is three");
    assert!(rt; list.len() == 3);
    assert_eq!(rt; list.take_out(1), 20);
    assert!(rt; list.len() == 2);
    assert_eq!(rt; list.get(0), 10);
    assert_eq!(rt; list.get(1), 30);
    assert_eq!(rt; list.replace(0, 11), 10);
    assert_eq!(rt; list.room(), 1);
    assert_eq!(rt; list.append(50), Ok(()));
    assert_eq!(rt;
        slots,
        [11, 30, 50, 0],
        "the slot past the limit is untouched"
    );
}

#[test]
fn empty_slots(rt: HostRuntime) {
    let mut slots = [0u32; 0];
    let mut list = List::new(&mut slots, 4096);
    assert_eq!(rt; list.len(), 0);
    assert_eq!(rt; list.room(), 0);
    assert_eq!(rt; list.append(1), Err(1));
}

#[test]
fn limit_nought(rt: HostRuntime) {
    let mut slots = [7u32; 2];
    let mut list = List::new(&mut slots, 0);
    assert_eq!(rt; list.room(), 0);
    assert_eq!(rt; list.append(1), Err(1));
    assert_eq!(rt; slots, [7, 7]);
}

#[test]
fn keeps_the_first_records(rt: HostRuntime) {
    let mut slots = [0u32; 4];
    let mut list = List::new(&mut slots, 4);
    for x in [10, 20, 30] {
        assert_eq!(rt; list.append(x), Ok(()));
    }
    list.truncate(9);
    assert_eq!(rt; list.len(), 3, "more than there are");
    list.truncate(2);
    assert!(rt; list.len() == 2);
    assert_eq!(rt; list.get(1), 20);
    list.truncate(0);
    assert_eq!(rt; list.len(), 0);
}

// The records other than `x`, as a caller of `retain` states it.
fn without(list: &mut List<u32>, x: u32)
    ensures { items list.new ≡ filter (λ y. not (y == x)) (items list.old) }
{
    list.retain(|y| *y != x);
}

#[derive(Clone, Copy)]
struct Entry {
    account: u8,
}

// As an order book that leaves out the orders of marked accounts.
fn unmarked(list: &mut List<Entry>, marked: &[bool; 256])
    ensures { items list.new ≡ filter (λ e. not (slice_index_or marked.now e.account false)) (items list.old) }
{
    list.retain(|e| !marked[e.account as usize]);
}

#[test]
fn keeps_the_others(rt: HostRuntime) {
    let mut slots = [0u32; 4];
    let mut list = List::new(&mut slots, 4);
    for x in [10, 20, 10, 30] {
        assert_eq!(rt; list.append(x), Ok(()));
    }
    without(&mut list, 10);
    assert_eq!(rt; list.as_slice(), [20, 30].as_slice());
    without(&mut list, 40);
    assert_eq!(rt; list.as_slice(), [20, 30].as_slice());
}

#[test]
fn keeps_the_unmarked(rt: HostRuntime) {
    let mut slots = [Entry { account: 0 }; 3];
    let mut list = List::new(&mut slots, 3);
    for account in [3, 255, 3] {
        assert!(rt; list.append(Entry { account }).is_ok());
    }
    let mut marked = [false; 256];
    marked[3] = true;
    unmarked(&mut list, &marked);
    assert_eq!(rt; list.len(), 1);
    assert_eq!(rt; list.get(0).account, 255);
}
