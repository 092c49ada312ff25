ghost use Rattle.std.specs.Prelude.{◌≤◌};

// A price in yen for one BTC that is no higher than any can be; 0 where none has come.
#[derive(Clone, Copy, PartialEq, Eq, Debug)]
pub struct Price {
    pub yen: u32,
    ghost top: { yen ≤ 100000000 },
}
