// One transfer, as a journal keeps it: `amount` in sen.
#[derive(Clone, Copy)]
pub struct Entry {
    pub payer: u8,
    pub payee: u8,
    pub amount: u64,
}
