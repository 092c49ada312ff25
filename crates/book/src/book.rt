ghost use Rattle.std.specs.Prelude.{◌≡◌, true, is_err};
ghost use Rattle.terms.specs.Refusals.{answer};
ghost use Rattle.book.specs.Meaning.{Meaning, Lawful, transfer_refusal, transferred};

use terms::Refusal;

// Whoever builds a book says what it means and shows the clauses and the law below; nothing else is asked.
pub trait Book {
    ghost meaning: { Self → Meaning };

    // Moves `amount` sen from payer to payee. They are three parameters and no `Entry`: so the host names a transfer, and a running book keeps no entry.
    fn transfer(&mut self, payer: u8, payee: u8, amount: u64) -> Result<(), Refusal>
        ensures answers { result ≡ answer (transfer_refusal (meaning self.old).left payer payee amount) }
        ensures leaves { meaning self.new ≡ transferred (meaning self.old) payer payee amount }
        ensures same { is_err result ≡ true → self.new ≡ self.old };

    fn balance(&self, account: u8) -> i64
        ensures { result ≡ (meaning self.now).balance account };

    // Entries made.
    fn made(&self) -> u32
        ensures { result ≡ (meaning self.now).made };

    // Entries left.
    fn left(&self) -> u32
        ensures { result ≡ (meaning self.now).left };

    // What is always true of a book.
    ghost lawful: { (b : Self) → Lawful (meaning b) };
}
