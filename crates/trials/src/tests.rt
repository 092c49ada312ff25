use book::{Book, RunningBook};
use ledger::Ledger;
use orders::Order;
use std::test::Fail;
use terms::{Lot, Refusal, Settings, Side};

const LOT: Lot = Lot {
    account: 0,
    side: Side::Buy,
    quantity: 0,
    price: 0,
    charge: 0,
};

const ORDER: Order = Order {
    number: 0,
    account: 0,
    side: Side::Buy,
    price: 0,
    quantity: 0,
    cut: false,
};

// 50 percent margin, so that 200 units at 1 yen need 1 yen.
fn settings() -> Result<Settings, Fail> {
    Ok(Settings::new(300, 3, 400, 50)?)
}

// The number of the refusal, or 0 where the call was taken.
fn told(r: Result<(), Refusal>) -> u8 {
    r.map_or_else(u8::from, |()| 0)
}

// The order's number, or the number of the refusal.
fn numbered(r: Result<u32, Refusal>) -> Result<u32, u8> {
    r.map_err(u8::from)
}

#[test]
fn spot_prices_and_deposits(rt: HostRuntime) -> Result<(), Fail> {
    let mut lots = [LOT; 1];
    let mut orders = [ORDER; 1];
    let mut ledger = Ledger::open(settings()?, &mut lots, &mut orders);
    let mut book = RunningBook::new(2);
    assert_eq!(rt; told(ledger.spot(&book, 0)), 9);
    assert_eq!(rt; told(ledger.spot(&book, 100_000_001)), 9);
    assert_eq!(rt; ledger.status().spot, None, "a refused price is not kept");
    assert_eq!(rt; told(ledger.spot(&book, 100_000_000)), 0);
    assert_eq!(rt; ledger.status().spot, Some(100_000_000));
    assert_eq!(rt; told(ledger.deposit(&mut book, 1, 0)), 7);
    assert_eq!(rt; told(ledger.deposit(&mut book, 2, 0)), 11);
    assert_eq!(rt; told(ledger.deposit(&mut book, 2, 10_000_000_000)), 0);
    assert_eq!(rt; told(ledger.deposit(&mut book, 255, 1)), 0);
    assert_eq!(rt; told(ledger.deposit(&mut book, 255, 1)), 22);
    assert_eq!(rt; told(ledger.deposit(&mut book, 255, 0)), 11, "hides 22");
    assert_eq!(rt; ledger.standing(&book, 255).equity, 100);
    Ok(())
}

#[test]
fn withdrawals(rt: HostRuntime) -> Result<(), Fail> {
    let mut lots = [LOT; 1];
    let mut orders = [ORDER; 1];
    let mut ledger = Ledger::open(settings()?, &mut lots, &mut orders);
    let mut book = RunningBook::new(3);
    assert_eq!(rt; told(ledger.deposit(&mut book, 3, 60)), 0);
    assert_eq!(rt; told(ledger.spot(&book, 1_000)), 0);
    assert_eq!(rt;
        numbered(ledger.order(&book, 3, 0, 1_000, 10)),
        Ok(1),
        "50 yen"
    );
    assert_eq!(rt; told(ledger.withdraw(&mut book, 1, 0)), 7);
    assert_eq!(rt; told(ledger.withdraw(&mut book, 3, 0)), 11);
    assert_eq!(rt;
        told(ledger.withdraw(&mut book, 4, 10_000_000_001)),
        11,
        "hides 20"
    );
    assert_eq!(rt; told(ledger.withdraw(&mut book, 3, 11)), 20, "one yen more");
    assert_eq!(rt; told(ledger.withdraw(&mut book, 4, 1)), 20, "nothing there");
    assert_eq!(rt;
        told(ledger.withdraw(&mut book, 3, 10)),
        0,
        "all that is free"
    );
    assert_eq!(rt; ledger.status().orders, 1, "the order stays");
    assert_eq!(rt; told(ledger.cancel(&book, 1)), 0);
    assert_eq!(rt; told(ledger.withdraw(&mut book, 3, 49)), 0);
    assert_eq!(rt; told(ledger.withdraw(&mut book, 3, 1)), 22);
    assert_eq!(rt; told(ledger.withdraw(&mut book, 3, 2)), 20, "hides 22");
    assert_eq!(rt; book.balance(3), 100);
    Ok(())
}

#[test]
fn orders_out_of_range(rt: HostRuntime) -> Result<(), Fail> {
    let mut lots = [LOT; 0];
    let mut orders = [ORDER; 0];
    let mut ledger = Ledger::open(settings()?, &mut lots, &mut orders);
    let mut book = RunningBook::new(1);
    assert_eq!(rt; numbered(ledger.order(&book, 1, 2, 0, 0)), Err(7));
    assert_eq!(rt; numbered(ledger.order(&book, 3, 2, 0, 0)), Err(8));
    assert_eq!(rt; numbered(ledger.order(&book, 3, 1, 100_000_001, 0)), Err(9));
    assert_eq!(rt; numbered(ledger.order(&book, 3, 1, 0, 0)), Err(10));
    assert_eq!(rt; numbered(ledger.order(&book, 3, 1, 0, 10_001)), Err(10));
    assert_eq!(rt; numbered(ledger.order(&book, 3, 1, 0, 10_000)), Err(12));
    assert_eq!(rt; told(ledger.spot(&book, 1)), 0);
    assert_eq!(rt; numbered(ledger.order(&book, 3, 1, 0, 10_000)), Err(20));
    assert_eq!(rt; told(ledger.deposit(&mut book, 3, 50)), 0);
    assert_eq!(rt;
        numbered(ledger.order(&book, 3, 1, 0, 10_000)),
        Err(21),
        "no slot"
    );
    assert_eq!(rt;
        numbered(ledger.order(&book, 2, 1, 0, 10_000)),
        Err(21),
        "asked no margin"
    );
    assert_eq!(rt; ledger.status().issued, 0);
    Ok(())
}

#[test]
fn fifty_thousand_units_a_side(rt: HostRuntime) -> Result<(), Fail> {
    let mut lots = [LOT; 1];
    let mut orders = [ORDER; 7];
    let mut ledger = Ledger::open(settings()?, &mut lots, &mut orders);
    let mut book = RunningBook::new(1);
    assert_eq!(rt; told(ledger.spot(&book, 1)), 0);
    assert_eq!(rt; told(ledger.deposit(&mut book, 255, 300)), 0);
    for n in 1..=5u32 {
        assert_eq!(rt; numbered(ledger.order(&book, 255, 0, 1, 10_000)), Ok(n));
    }
    assert_eq!(rt;
        numbered(ledger.order(&book, 255, 0, 1, 1)),
        Err(19),
        "one unit more"
    );
    assert_eq!(rt;
        numbered(ledger.order(&book, 255, 0, 1, 10_001)),
        Err(10),
        "hides 19"
    );
    assert_eq!(rt;
        numbered(ledger.order(&book, 255, 0, 1_000, 1)),
        Err(19),
        "hides 20"
    );
    assert_eq!(rt;
        numbered(ledger.order(&book, 255, 1, 1, 10_000)),
        Ok(6),
        "the other side"
    );
    assert_eq!(rt;
        numbered(ledger.order(&book, 254, 0, 1, 1)),
        Err(20),
        "another account"
    );
    assert_eq!(rt;
        numbered(ledger.order(&book, 2, 0, 1, 10_000)),
        Ok(7),
        "no margin needed"
    );
    assert_eq!(rt; ledger.standing(&book, 255).margin, 300);
    Ok(())
}

#[test]
fn market_orders_before_any_fill(rt: HostRuntime) -> Result<(), Fail> {
    let mut lots = [LOT; 1];
    let mut orders = [ORDER; 3];
    let mut ledger = Ledger::open(settings()?, &mut lots, &mut orders);
    let mut book = RunningBook::new(2);
    assert_eq!(rt; told(ledger.deposit(&mut book, 3, 50_001)), 0);
    assert_eq!(rt; told(ledger.deposit(&mut book, 4, 50_000)), 0);
    assert_eq!(rt; told(ledger.spot(&book, 10_000_001)), 0);
    assert_eq!(rt;
        numbered(ledger.order(&book, 4, 0, 0, 1)),
        Err(20),
        "a yen is missing"
    );
    assert_eq!(rt;
        numbered(ledger.order(&book, 3, 0, 0, 1)),
        Ok(1),
        "valued at spot"
    );
    assert_eq!(rt;
        numbered(ledger.order(&book, 4, 1, 10_000_000, 1)),
        Ok(2),
        "at its limit"
    );
    assert_eq!(rt; ledger.standing(&book, 3).margin, 50_001);
    assert_eq!(rt; told(ledger.spot(&book, 10_000_201)), 0, "now 50,002 yen");
    assert_eq!(rt; ledger.status().orders, 1, "the market order is void");
    match ledger.order_at(0) {
        Some(o) => {
            assert_eq!(rt; o.number, 2);
            Ok(())
        },
        None => Err(Fail::new("the limit order is gone")),
    }
}

#[test]
fn cancels(rt: HostRuntime) -> Result<(), Fail> {
    let mut lots = [LOT; 1];
    let mut orders = [ORDER; 2];
    let mut ledger = Ledger::open(settings()?, &mut lots, &mut orders);
    let book = RunningBook::new(0);
    assert_eq!(rt; told(ledger.cancel(&book, 0)), 13);
    assert_eq!(rt; told(ledger.spot(&book, 5)), 0);
    assert_eq!(rt; numbered(ledger.order(&book, 2, 0, 1, 1)), Ok(1));
    assert_eq!(rt; numbered(ledger.order(&book, 2, 1, 2, 1)), Ok(2));
    assert_eq!(rt;
        numbered(ledger.order(&book, 2, 0, 3, 1)),
        Err(21),
        "both slots are used"
    );
    assert_eq!(rt; told(ledger.cancel(&book, 3)), 13);
    assert_eq!(rt; told(ledger.cancel(&book, 1)), 0);
    assert_eq!(rt; told(ledger.cancel(&book, 1)), 13, "it is gone");
    assert_eq!(rt;
        numbered(ledger.order(&book, 2, 0, 3, 1)),
        Ok(3),
        "numbers only rise"
    );
    assert_eq!(rt; ledger.status().orders, 2);
    assert!(rt; ledger.order_at(2).is_none());
    Ok(())
}

#[test]
fn no_more_than_4096_orders(rt: HostRuntime) -> Result<(), Fail> {
    let mut lots = [LOT; 1];
    let mut orders = vec![in rt.alloc(); ORDER; 4_097]?;
    let mut ledger = Ledger::open(settings()?, &mut lots, orders.as_mut_slice());
    let book = RunningBook::new(0);
    assert_eq!(rt; told(ledger.spot(&book, 1)), 0);
    for n in 1..=4_096u32 {
        assert_eq!(rt; numbered(ledger.order(&book, 2, 0, 1, 1)), Ok(n));
    }
    assert_eq!(rt; numbered(ledger.order(&book, 2, 0, 1, 1)), Err(21));
    assert_eq!(rt; ledger.status().orders, 4_096);
    Ok(())
}

#[test]
fn closed_out_without_lots(rt: HostRuntime) -> Result<(), Fail> {
    let mut lots = [LOT; 1];
    let mut orders = [ORDER; 1];
    let mut ledger = Ledger::open(settings()?, &mut lots, &mut orders);
    let mut book = RunningBook::new(1);
    assert_eq!(rt; told(ledger.deposit(&mut book, 3, 7)), 0);
    assert!(rt; ledger.closed_out(&book, 3, 0).is_err());
    assert!(rt; ledger.closed_out(&book, 3, 100_000_001).is_err());
    assert_eq!(rt; ledger.closed_out(&book, 3, 1)?, 700);
    assert_eq!(rt; ledger.closed_out(&book, 1, 1)?, 0);
    assert_eq!(rt; ledger.closed_out(&book, 0, 100_000_000)?, -700);
    assert!(rt; ledger.lot(0).is_none());
    Ok(())
}
