ghost use Rattle.std.specs.Prelude.{◌≡◌, ◌+◌, ◌*◌, ◌≤◌, min, pos, slice_index_or, unsigned_abs};
ghost use Rattle.book.specs.Meaning.{fresh};
ghost use Rattle.book.specs.Balances.{added, kept};
ghost use Rattle.book.specs.Running.{running_meaning, lawful_running};

use crate::admission::admit;
use crate::book::Book;
use crate::running::RunningBook;
use terms::Refusal;
use terms::ranges::{ACCOUNTS, ENTRIES_MAX};

// Adds `z` to one balance.
fn add(balances: &mut [i64; 256], account: u8, z: i64)
    requires old { unsigned_abs (slice_index_or balances.old account (pos 0)) ≤ 80000000000000 * 65536 }
    requires change { unsigned_abs z ≤ 80000000000000 }
    ensures { balances.new ≡ added balances.old account z }
{
    balances[account as usize] += z;
}

impl RunningBook {
    // A fresh book for so many entries, at most 65,536.
    pub fn new(entries: usize) -> RunningBook
        ensures { running_meaning result ≡ fresh (min entries 65536) }
    {
        RunningBook {
            balances: [0; ACCOUNTS],
            made: 0,
            left: entries.min(ENTRIES_MAX as usize) as u32,
        }
    }
}

impl Book for RunningBook {
    ghost meaning = { running_meaning };

    ghost lawful = { lawful_running };

    fn transfer(&mut self, payer: u8, payee: u8, amount: u64) -> Result<(), Refusal> {
        admit(self.left, payer, payee, amount)?;
        add(&mut self.balances, payer, -(amount as i64));
        add(&mut self.balances, payee, amount as i64);
        self.made += 1;
        self.left -= 1;
        Ok(())
    }

    fn balance(&self, account: u8) -> i64 {
        self.balances[account as usize]
    }

    fn made(&self) -> u32 {
        self.made
    }

    fn left(&self) -> u32 {
        self.left
    }
}
