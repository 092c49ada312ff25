// What the calls of a ledger do, as definitions over plain records, and the laws that these keep.
#![tactic(auto)]

pub mod laws;
