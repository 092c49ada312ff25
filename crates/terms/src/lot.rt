use crate::side::Side;

// What an account holds of one fill: quantity in units of 0.01 BTC, opening price, and the charge so far in whole yen.
#[derive(Clone, Copy)]
pub struct Lot {
    pub account: u8,
    pub side: Side,
    pub quantity: u32,
    pub price: u32,
    pub charge: i64,
}
