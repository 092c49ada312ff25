use crate::price::Price;
use crate::settings::Settings;

// What accounts are valued by: spot, and the mark, which is the last CFD price, or spot where there is none.
#[derive(Clone, Copy)]
pub struct Valuation {
    pub settings: Settings,
    pub spot: u32,
    pub mark: Price,
}
