use crate::book::Book;
use crate::clients::client_money;
use crate::deposits::move_deposit;
use crate::entry::Entry;
use crate::journal::JournalBook;
use crate::running::RunningBook;
use std::process::Abort;
use std::test::Fail;
use terms::Refusal;

// Three entries, with the edges of an amount before and after they are used up.
fn edges<B: Book>(rt: &impl Abort, book: &mut B) {
    assert_eq!(rt; book.left(), 3);
    assert_eq!(rt;
        book.transfer(3, 3, 1),
        Err(Refusal::TransferUnlawful),
        "one account"
    );
    assert_eq!(rt;
        book.transfer(3, 4, 0),
        Err(Refusal::TransferUnlawful),
        "nought"
    );
    assert_eq!(rt;
        book.transfer(3, 4, 80_000_000_000_001),
        Err(Refusal::TransferUnlawful),
        "one sen too many"
    );
    assert_eq!(rt; book.made(), 0);
    assert_eq!(rt; book.transfer(3, 4, 80_000_000_000_000), Ok(()));
    assert_eq!(rt; book.transfer(3, 255, 1), Ok(()));
    assert_eq!(rt; book.transfer(255, 0, 2), Ok(()));
    assert_eq!(rt;
        book.transfer(3, 4, 1),
        Err(Refusal::NoEntryLeft),
        "no entry left"
    );
    assert_eq!(rt;
        book.transfer(3, 3, 1),
        Err(Refusal::TransferUnlawful),
        "unlawful comes first"
    );
    assert_eq!(rt; book.balance(3), -80_000_000_000_001);
    assert_eq!(rt; book.balance(4), 80_000_000_000_000);
    assert_eq!(rt; book.balance(255), -1);
    assert_eq!(rt; book.balance(0), 2);
    assert_eq!(rt; book.made(), 3);
    assert_eq!(rt; book.left(), 0);
    assert_eq!(rt; client_money(book), -2);
}

#[test]
fn edges_of_a_running_book(rt: HostRuntime) {
    let mut book = RunningBook::new(3);
    edges(&rt, &mut book);
}

#[test]
fn edges_of_a_journal(rt: HostRuntime) {
    let mut slots = [Entry {
        payer: 9,
        payee: 9,
        amount: 9,
    }; 3];
    let mut book = JournalBook::new(&mut slots);
    edges(&rt, &mut book);
}

// Entry 65,536 is the last one, however many were asked for.
fn fills_up<B: Book>(rt: &impl Abort, book: &mut B) {
    for _ in 0..65_536u32 {
        assert_eq!(rt; book.transfer(0, 3, 2), Ok(()));
    }
    assert_eq!(rt; book.transfer(0, 3, 2), Err(Refusal::NoEntryLeft));
    assert_eq!(rt; book.made(), 65_536);
    assert_eq!(rt; book.balance(3), 131_072);
}

#[test]
fn running_book_fills_up(rt: HostRuntime) {
    let mut book = RunningBook::new(usize::MAX);
    fills_up(&rt, &mut book);
}

#[test]
fn journal_fills_up(rt: HostRuntime) -> Result<(), Fail> {
    let none = Entry {
        payer: 0,
        payee: 0,
        amount: 0,
    };
    let mut slots = vec![in rt.alloc(); none; 65_537]?;
    let mut book = JournalBook::new(slots.as_mut_slice());
    fills_up(&rt, &mut book);
    Ok(())
}

#[test]
fn empty_books(rt: HostRuntime) {
    let mut running = RunningBook::new(0);
    assert_eq!(rt; running.transfer(0, 3, 1), Err(Refusal::NoEntryLeft));
    let mut slots = [Entry {
        payer: 0,
        payee: 0,
        amount: 0,
    }; 0];
    let mut journal = JournalBook::new(&mut slots);
    assert_eq!(rt; journal.transfer(0, 3, 1), Err(Refusal::NoEntryLeft));
    assert_eq!(rt; move_deposit(&mut journal, 3, 1), Err(Refusal::NoEntryLeft));
}

#[test]
fn deposits(rt: HostRuntime) {
    let mut book = RunningBook::new(2);
    assert_eq!(rt;
        move_deposit(&mut book, 1, 0),
        Err(Refusal::AccountOutOfRange),
        "the account comes first"
    );
    assert_eq!(rt;
        move_deposit(&mut book, 2, 0),
        Err(Refusal::PaymentOutOfRange)
    );
    assert_eq!(rt;
        move_deposit(&mut book, 2, 10_000_000_001),
        Err(Refusal::PaymentOutOfRange)
    );
    assert_eq!(rt; move_deposit(&mut book, 255, 10_000_000_000), Ok(()));
    assert_eq!(rt; move_deposit(&mut book, 2, 1), Ok(()));
    assert_eq!(rt; move_deposit(&mut book, 2, 1), Err(Refusal::NoEntryLeft));
    assert_eq!(rt; book.balance(255), 1_000_000_000_000);
    assert_eq!(rt; book.balance(2), 100);
    assert_eq!(rt; book.balance(0), -1_000_000_000_100);
    assert_eq!(rt; client_money(&book), 1_000_000_000_100);
}
