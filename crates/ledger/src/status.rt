// The numbers of a ledger: its time, spot price, last CFD price, the time at which a halt can end, the last order number given, and how many lots and orders it holds.
#[derive(Clone, Copy)]
pub struct Status {
    pub time: u32,
    pub spot: Option<u32>,
    pub last: Option<u32>,
    pub halt: Option<u32>,
    pub issued: u32,
    pub lots: usize,
    pub orders: usize,
}
