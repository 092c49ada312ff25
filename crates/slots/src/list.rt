// Records in order of their coming, in slots that somebody lends.
// Every value of this type is a list: the records are the first `len` slots, as far as there are slots and `limit` allows.
// Slots and length lie side by side, as the host lends the slots and the ledger has no heap.
#[derive(Drop)]
pub struct List<'a, T> {
    pub(crate) slots: &'a mut [T],
    pub(crate) limit: usize,
    pub(crate) len: usize,
}
