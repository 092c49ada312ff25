use crate::bands::is_outside;
use crate::calendar::{day, next_due};
use crate::charges::{funding, funding_difference, paid, points, received};
use crate::closing::{settlement, split_charge};
use crate::margins::{is_at_cut_level, is_short_of, requirement, shortfall};
use crate::moments::{Due, Moment};
use crate::outcome::Outcome;
use crate::price::Price;
use crate::refusal::Refusal;
use crate::settings::Settings;
use crate::side::Side;
use std::test::Fail;

fn taken(r: u32, g: u32, k: u32, p: u32) -> bool {
    Settings::new(r, g, k, p).is_ok()
}

#[test]
fn settings_bounds(rt: HostRuntime) {
    assert!(rt; taken(0, 1, 0, 50), "every lower bound");
    assert!(rt; taken(1_000, 100, 4_000, 100), "every upper bound");
    assert!(rt; !taken(1_001, 1, 0, 50), "points rate above");
    assert!(rt; !taken(0, 0, 0, 50), "funding divisor below");
    assert!(rt; !taken(0, 101, 0, 50), "funding divisor above");
    assert!(rt; !taken(0, 1, 4_001, 50), "funding cap above");
    assert!(rt; !taken(0, 1, 0, 49), "margin percent below");
    assert!(rt; !taken(0, 1, 0, 101), "margin percent above");
    assert!(rt; !taken(u32::MAX, u32::MAX, u32::MAX, u32::MAX), "all above");
}

#[test]
fn settings_tell_their_numbers(rt: HostRuntime) -> Result<(), Fail> {
    let s = Settings::new(400, 3, 4_000, 50)?;
    assert_eq!(rt; s.points_rate(), 400);
    assert_eq!(rt; s.funding_divisor(), 3);
    assert_eq!(rt; s.funding_cap(), 4_000);
    assert_eq!(rt; s.margin_percent(), 50);
    Ok(())
}

#[test]
fn numbers_run_from_6_to_25(rt: HostRuntime) {
    let all = [
        Refusal::TimeOutOfRange,
        Refusal::AccountOutOfRange,
        Refusal::CodeOutOfRange,
        Refusal::PriceOutOfRange,
        Refusal::QuantityOutOfRange,
        Refusal::PaymentOutOfRange,
        Refusal::NoSpotPrice,
        Refusal::OrderNotHeld,
        Refusal::OrdersDoNotMatch,
        Refusal::FillExceedsOrder,
        Refusal::FillOutsideLimit,
        Refusal::WrongHaltState,
        Refusal::WrongAccountState,
        Refusal::PositionTooLarge,
        Refusal::MarginTooSmall,
        Refusal::NoSlotLeft,
        Refusal::NoEntryLeft,
        Refusal::TicketNotInHand,
        Refusal::SettingOutOfRange,
        Refusal::TransferUnlawful,
    ];
    for (i, e) in all.iter().enumerate() {
        assert!(rt; usize::from(u8::from(*e)) == i.saturating_add(6));
    }
}

#[test]
fn words_of_a_refusal(rt: HostRuntime) -> Result<(), Fail> {
    let s = Refusal::AccountOutOfRange.to_string(rt.alloc())?;
    assert_eq!(rt; s.as_str(), "the account is outside 2 to 255");
    Ok(())
}

#[test]
fn codes(rt: HostRuntime) {
    assert_eq!(rt; Side::try_from(0), Ok(Side::Buy));
    assert_eq!(rt; Side::try_from(1), Ok(Side::Sell));
    assert_eq!(rt; Side::try_from(2), Err(Refusal::CodeOutOfRange));
    assert_eq!(rt; Side::try_from(255), Err(Refusal::CodeOutOfRange));
    assert_eq!(rt; Outcome::try_from(0), Ok(Outcome::HandedBack));
    assert_eq!(rt; Outcome::try_from(1), Ok(Outcome::Sent));
    assert_eq!(rt; Outcome::try_from(2), Err(Refusal::CodeOutOfRange));
    assert_eq!(rt; u8::from(Side::Sell), 1);
    assert_eq!(rt; u8::from(Outcome::Sent), 1);
}

// Settings with which the worked figures are reckoned.
fn with(points_rate: u32, margin_percent: u32) -> Result<Settings, Fail> {
    Ok(Settings::new(points_rate, 3, 4_000, margin_percent)?)
}

#[test]
fn charges_and_margins(rt: HostRuntime) -> Result<(), Fail> {
    let s = with(400, 50)?;
    assert_eq!(rt; requirement(&s, 10_000_001, 1), 50_001);
    assert_eq!(rt; points(&s, 9_999_999, 1), 39);
    assert_eq!(rt; funding_difference(&s, 10_100_000, 10_000_000), 33_333);
    assert_eq!(rt; funding_difference(&s, 9_900_000, 10_000_000), -33_333);
    assert_eq!(rt; funding_difference(&s, 10_200_000, 10_000_000), 40_000);
    assert_eq!(rt; funding_difference(&s, 10_000_002, 10_000_000), 0);
    assert_eq!(rt; funding_difference(&s, 9_999_998, 10_000_000), 0);
    assert_eq!(rt; paid(33_333, 1), 334);
    assert_eq!(rt; received(33_333, 1), 333);
    assert_eq!(rt; funding(33_333, Side::Buy, 1), 334);
    assert_eq!(rt; funding(33_333, Side::Sell, 1), -333);
    assert_eq!(rt; funding(-33_333, Side::Sell, 1), 334);
    assert_eq!(rt; funding(0, Side::Buy, 50_000), 0);
    Ok(())
}

#[test]
fn splits_and_settlements(rt: HostRuntime) {
    assert_eq!(rt; split_charge(10, 1, 3), (3, 7));
    assert_eq!(rt; split_charge(-10, 1, 3), (-3, -7));
    assert_eq!(rt; split_charge(-10, 3, 3), (-10, 0));
    assert_eq!(rt;
        split_charge(i64::MIN, 4_294_967_295, 4_294_967_295),
        (i64::MIN, 0)
    );
    assert_eq!(rt;
        settlement(
            Side::Buy,
            Price { yen: 10_000_000 },
            Price { yen: 10_250_000 },
            100,
            4_000
        ),
        24_600_000
    );
    assert_eq!(rt;
        settlement(
            Side::Sell,
            Price { yen: 10_000_000 },
            Price { yen: 10_250_000 },
            100,
            4_000
        ),
        -25_400_000
    );
}

#[test]
fn tests_of_a_margin(rt: HostRuntime) {
    assert!(rt; is_at_cut_level(250_000_000, 5_000_000));
    assert!(rt; !is_at_cut_level(250_000_001, 5_000_000));
    assert!(rt; is_short_of(499_999_999, 5_000_000));
    assert!(rt; !is_short_of(500_000_000, 5_000_000));
    assert_eq!(rt; shortfall(499_999_999, 5_000_000), 1);
    assert_eq!(rt; shortfall(499_999_900, 5_000_000), 1);
    assert_eq!(rt; shortfall(499_999_899, 5_000_000), 2);
    assert_eq!(rt; shortfall(500_000_000, 5_000_000), 0);
    assert_eq!(rt; shortfall(i64::MIN, 0), 92_233_720_368_547_759);
}

#[test]
fn edges_of_the_bands(rt: HostRuntime) {
    assert!(rt; !is_outside(1_050, None, 1_000), "5 % above spot");
    assert!(rt; is_outside(1_051, None, 1_000));
    assert!(rt; !is_outside(950, None, 1_000), "5 % below spot");
    assert!(rt; is_outside(949, None, 1_000));
    assert!(rt;
        !is_outside(1_150, Some(1_000), 1_150),
        "15 % above the base"
    );
    assert!(rt; is_outside(1_151, Some(1_000), 1_150));
    assert!(rt; !is_outside(1_151, None, 1_150), "no base");
}

#[test]
fn due_moments(rt: HostRuntime) {
    let table = [
        (0, 21_600, Moment::Funding),
        (21_600, 50_400, Moment::Funding),
        (50_400, 61_200, Moment::Deadline),
        (61_200, 64_800, Moment::Rollover),
        (64_800, 79_200, Moment::Funding),
        (79_200, 108_000, Moment::Funding),
        (94_694_399, 94_716_000, Moment::Funding),
    ];
    for (time, at, moment) in table {
        assert_eq!(rt; next_due(time, at), Some(Due { at, moment }));
        assert_eq!(rt; next_due(time, at - 1), None);
    }
    assert_eq!(rt; next_due(u32::MAX, u32::MAX), None);
    assert_eq!(rt; day(86_399), 0);
    assert_eq!(rt; day(86_400), 1);
}
