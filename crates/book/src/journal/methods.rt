ghost use Rattle.std.specs.Prelude.{◌≡◌, ◌≤◌, min, true, [], ◌∷◌, ◌++◌, length, drop, is_ok, is_err, unsigned_abs};
ghost use Rattle.slots.specs.Items.{items, free};
ghost use Rattle.terms.specs.Refusals.{answer};
ghost use Rattle.book.specs.Meaning.{fresh, shift, transfer_refusal, transferred};
ghost use Rattle.book.specs.Entries.{Proper, entry};
ghost use Rattle.book.specs.Journal.{journal_meaning};

use crate::admission::admit;
use crate::book::Book;
use crate::entry::Entry;
use crate::journal::JournalBook;
use slots::List;
use terms::Refusal;
use terms::ranges::ENTRIES_MAX;

impl Entry {
    // What a lawful entry adds to the balance of an account.
    #[tactic(auto, unfolding(crate::specs::Meaning::shift, crate::specs::Meaning::only))]
    fn effect(&self, account: u8) -> i64
        requires { Proper self.now }
        ensures value { result ≡ shift self.now.payer self.now.payee self.now.amount account }
        ensures bound { unsigned_abs result ≤ 80000000000000 }
    {
        if self.payee == account {
            self.amount as i64
        } else if self.payer == account {
            -(self.amount as i64)
        } else {
            0
        }
    }
}

impl<'a> JournalBook<'a> {
    // A fresh book for as many entries as there are slots, at most 65,536.
    pub fn new(slots: &'a mut [Entry]) -> JournalBook<'a>
        ensures meaning { journal_meaning result ≡ fresh (min (length slots.old) 65536) }
        ensures slots { free result.entries ≡ slots.old }
    {
        let entries = List::new(slots, ENTRIES_MAX as usize);
        JournalBook { entries }
    }
}

impl<'a> Book for JournalBook<'a> {
    ghost meaning = { journal_meaning };

    ghost lawful = { λ b. b.adds_up };

    // Beyond what a book owes: the entry stands behind the earlier ones, and the slots past it are as they were.
    // A method that adds clauses has to repeat those of its trait: left out, they are not found.
    fn transfer(&mut self, payer: u8, payee: u8, amount: u64) -> Result<(), Refusal>
        ensures answers { result ≡ answer (transfer_refusal (journal_meaning self.old).left payer payee amount) }
        ensures leaves { journal_meaning self.new ≡ transferred (journal_meaning self.old) payer payee amount }
        ensures same { is_err result ≡ true → self.new ≡ self.old }
        ensures entries { is_ok result ≡ true → items self.new.entries ≡ items self.old.entries ++ entry payer payee amount ∷ [] }
        ensures slots { is_ok result ≡ true → free self.new.entries ≡ drop 1 (free self.old.entries) }
    {
        admit(self.left(), payer, payee, amount)?;
        let _ = self.entries.append(Entry {
            payer,
            payee,
            amount,
        });
        Ok(())
    }

    fn balance(&self, account: u8) -> i64 {
        let mut sum = 0;
        for entry in self.entries.as_slice() {
            sum += entry.effect(account);
        }
        sum
    }

    fn made(&self) -> u32 {
        self.entries.len() as u32
    }

    fn left(&self) -> u32 {
        self.entries.room() as u32
    }
}
