use crate::exposure::Exposure;
use crate::standing::standing;
use accounts::Standing;
use book::{Book, RunningBook};
use lots::Holding;
use std::process::Abort;
use std::test::Fail;
use terms::Settings;

// With so many sen in the book, 100 units that gain 100 sen, orders that need 7 yen, spot 10,000,001 and 50 %.
fn told(rt: &impl Abort, account: u8, sen: u64) -> Result<Standing, Fail> {
    let mut book = RunningBook::new(1);
    assert!(rt; book.transfer(0, account, sen).is_ok());
    let exposure = Exposure {
        holding: Holding {
            worth: 100,
            units: 100,
        },
        ordered: 7,
    };
    let settings = Settings::new(0, 1, 0, 50)?;
    Ok(standing(&book, account, exposure, &settings, 10_000_001))
}

#[test]
fn standings(rt: HostRuntime) -> Result<(), Fail> {
    let needed = Standing {
        equity: 250_000_100,
        requirement: 5_000_001,
        margin: 5_000_008,
        units: 100,
    };
    assert_eq!(rt; told(&rt, 3, 250_000_000)?, needed);
    let proprietary = Standing {
        equity: 101,
        requirement: 0,
        margin: 0,
        units: 100,
    };
    assert_eq!(rt;
        told(&rt, 2, 1)?,
        proprietary,
        "the proprietary account needs none"
    );
    Ok(())
}
