ghost use Rattle.std.specs.Prelude.{◌≡◌, ◌≤◌, true};
ghost use Rattle.slots.specs.Items.{items, capacity};
ghost use Rattle.book.specs.Entries.{proper, journaled};
ghost use Rattle.book.specs.Meaning.{Lawful};

use crate::entry::Entry;
use slots::List;

mod methods;

// Keeps every entry, in slots that the host lends, and adds them up when asked.
// `adds_up` follows from the other two (`lawful_journaled`), and is kept for the law of a book.
#[derive(Drop)]
pub struct JournalBook<'a> {
    entries: List<'a, Entry>,
    ghost few: { capacity entries ≤ 65536 },
    ghost lawful: { proper (items entries) ≡ true },
    ghost adds_up: { Lawful (journaled (items entries) (capacity entries)) },
}
