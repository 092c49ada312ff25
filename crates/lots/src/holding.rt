// What an account's lots come to: closed out in sen, and their units.
// Without bounds in the type, as the definition `holding_of` makes one of any lots, also of more than a ledger has.
#[derive(Clone, Copy)]
pub struct Holding {
    pub worth: i64,
    pub units: u32,
}
