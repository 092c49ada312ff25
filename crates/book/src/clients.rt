ghost use Rattle.std.specs.Prelude.{◌≡◌, neg_ℤ};
ghost use Rattle.book.specs.Meaning.{clients};

use crate::book::Book;
use terms::ranges::COMPANY;

// What the company and its customers hold together, in sen: accounts 1 to 255. The bank owes exactly that.
pub fn client_money<B: Book>(book: &B) -> i128
    ensures value { result ≡ clients (B.meaning book.now) }
    ensures agrees { result ≡ neg_ℤ ((B.meaning book.now).balance 0) }
{
    let mut sum = 0;
    for account in COMPANY..=255 {
        sum += i128::from(book.balance(account));
    }
    sum
}
