use crate::accounts::Accounts;
use crate::review::{clear, is_open, is_sound, review};
use crate::standing::{Decision, Standing};
use crate::state::AccountState;
use crate::withdrawals::exceeds;

fn standing(equity: i64, requirement: u64, margin: u64, units: u32) -> Standing {
    Standing {
        equity,
        requirement,
        margin,
        units,
    }
}

// Requirement 10 yen, whole margin 12 yen, and so many sen of equity.
fn told(account: u8, state: AccountState, equity: i64, units: u32) -> Decision {
    review(account, state, standing(equity, 10, 12, units))
}

fn decided(state: AccountState, void: bool) -> Decision {
    Decision { state, void }
}

#[test]
fn reviews_at_the_edges(rt: HostRuntime) {
    let sound = AccountState::Sound;
    let called = AccountState::Called {
        day: 0,
        shortfall: 1,
    };
    assert_eq!(rt;
        told(3, sound, 1_200, 1),
        decided(sound, false),
        "all of the margin"
    );
    assert_eq!(rt;
        told(3, sound, 1_199, 1),
        decided(sound, true),
        "a sen less"
    );
    assert_eq!(rt;
        told(3, called, 501, 1),
        decided(called, true),
        "above the cut level"
    );
    assert_eq!(rt;
        told(3, called, 500, 1),
        decided(AccountState::CutDue, true),
        "at the cut level"
    );
    assert_eq!(rt;
        told(3, sound, 500, 0),
        decided(sound, true),
        "without lots"
    );
    assert_eq!(rt;
        told(2, sound, -1, 1),
        decided(sound, false),
        "the proprietary account"
    );
    assert_eq!(rt;
        told(3, AccountState::CutOut, -1, 1),
        decided(AccountState::CutOut, false),
        "not reviewed"
    );
}

#[test]
fn calls_are_cleared(rt: HostRuntime) {
    let called = AccountState::Called {
        day: 0,
        shortfall: 1,
    };
    assert_eq!(rt; clear(called, standing(999, 10, 12, 1)), called);
    assert_eq!(rt;
        clear(called, standing(1_000, 10, 12, 1)),
        AccountState::Sound
    );
    assert_eq!(rt;
        clear(called, standing(-1, 10, 12, 0)),
        AccountState::Sound,
        "no lot left"
    );
    assert_eq!(rt;
        clear(AccountState::CutDue, standing(1_000, 10, 12, 1)),
        AccountState::CutDue
    );
}

#[test]
fn states_of_accounts(rt: HostRuntime) {
    let mut accounts = Accounts::new();
    assert_eq!(rt; accounts.state(255), AccountState::Sound);
    accounts.set(255, AccountState::CutDue);
    assert_eq!(rt; accounts.state(255), AccountState::CutDue);
    assert_eq!(rt; accounts.state(254), AccountState::Sound);
}

#[test]
fn states_that_were_decided(rt: HostRuntime) {
    let mut accounts = Accounts::new();
    let mut decisions = [decided(AccountState::Sound, false); 256];
    decisions[3] = decided(AccountState::CutDue, true);
    decisions[255] = decided(AccountState::CutOut, false);
    accounts.put(&decisions);
    assert_eq!(rt; accounts.state(3), AccountState::CutDue);
    assert_eq!(rt; accounts.state(4), AccountState::Sound);
    assert_eq!(rt; accounts.state(255), AccountState::CutOut);
}

#[test]
fn what_can_be_paid_out(rt: HostRuntime) {
    let bound = standing(1_000, 0, 4, 0);
    assert!(rt; !exceeds(600, 1_000, bound), "all that equity leaves");
    assert!(rt; exceeds(601, 1_000, bound), "a sen more");
    let free = standing(1_000, 0, 0, 0);
    assert!(rt; !exceeds(500, 500, free), "all of the balance");
    assert!(rt; exceeds(501, 500, free), "a sen more than the balance");
    assert!(rt; exceeds(1, -1, free), "a balance below nought");
}

#[test]
fn who_may_order_and_withdraw(rt: HostRuntime) {
    let called = AccountState::Called {
        day: 0,
        shortfall: 1,
    };
    assert!(rt; is_open(called));
    assert!(rt; !is_sound(called));
    assert!(rt; is_sound(AccountState::Sound));
    assert!(rt; !is_open(AccountState::CutDue));
    assert!(rt; !is_open(AccountState::CutInHand { order: 1 }));
    assert!(rt; !is_open(AccountState::CutOut));
}
