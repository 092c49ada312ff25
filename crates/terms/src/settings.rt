ghost use Rattle.std.specs.Prelude.{◌≤◌};

mod methods;

// What an opening fixes. No value of this type holds a number outside its range.
// The fields are private, so that nothing sets one again; each is read by a method of its own.
#[derive(Clone, Copy)]
pub struct Settings {
    // millionths of a lot's notional a day
    points_rate: u32,
    funding_divisor: u32,
    // millionths of spot
    funding_cap: u32,
    margin_percent: u32,
    ghost rate: { points_rate ≤ 1000 },
    ghost divided: { 1 ≤ funding_divisor },
    ghost divisor: { funding_divisor ≤ 100 },
    ghost capped: { funding_cap ≤ 4000 },
    ghost margined: { 50 ≤ margin_percent },
    ghost percent: { margin_percent ≤ 100 },
}
