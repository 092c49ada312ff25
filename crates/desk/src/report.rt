// What the desk writes of a book: its state for programs; a statement and closing words for people.
use crate::counts::{Counts, REFUSALS};
use crate::several::{Noun, Several};
use crate::totals::sums;
use book::Book;
use commands::opening::Opening;
use std::io;
use terms::ranges::{COMPANY, PROPRIETARY};
use workings::money::Yen;

pub(crate) fn write_state<B: Book>(rt: &HostRuntime, book: &B) -> io::Result<()> {
    for_balances(
        book,
        0,
        |account, sen| println!(rt; "balance {account} {sen}"),
    )?;
    println!(rt; "made {}", book.made())?;
    println!(rt; "left {}", book.left())?;
    println!(rt; "end")
}

pub(crate) fn write_statement<B: Book>(rt: &HostRuntime, book: &B) -> io::Result<()> {
    println!(rt; "# {:>17}  {:>26}", "account", "yen")?;
    for_balances(
        book,
        COMPANY,
        |account, sen| write_account(rt, account, sen),
    )?;
    let totals = sums(book);
    write_row(rt, "the accounts hold", totals.held)?;
    write_row(rt, "the bank owes", totals.owed)?;
    println!(rt; "# {}", totals.verdict())
}

// Writes each account from the first on whose balance is not nought.
fn for_balances<B: Book, F: FnMut(u8, i64) -> io::Result<()>>(
    book: &B,
    first: u8,
    mut write: F,
) -> io::Result<()>
    requires { (state : F) (account : _) (sen : _) → F.pre state account sen }
{
    for account in first..=255 {
        let sen = book.balance(account);
        if sen != 0 {
            write(account, sen)?;
        }
    }
    Ok(())
}

fn write_account(rt: &HostRuntime, account: u8, sen: i64) -> io::Result<()> {
    match account {
        COMPANY => write_row(rt, "company", sen as i128),
        PROPRIETARY => write_row(rt, "proprietary", sen as i128),
        _ => {
            let name = format!(in rt.alloc(); "{account}")?;
            write_row(rt, name.as_str(), sen as i128)
        }
    }
}

fn write_row(rt: &HostRuntime, name: &str, sen: i128) -> io::Result<()> {
    let amount = format!(in rt.alloc(); "{}", Yen(sen))?;
    println!(rt; "# {name:>17}  {amount:>26}")
}

// Handle, opening and counts come one by one, here and below, and in no `Desk`: nothing here answers, and each takes what it prints.
pub(crate) fn write_closing<B: Book>(
    rt: &HostRuntime,
    opening: &Opening,
    book: &B,
    counts: &Counts,
) -> io::Result<()> {
    write_opening(rt, opening)?;
    write_counts(rt, counts)?;
    let totals = sums(book);
    println!(rt;
        "# the bank owes {} yen, the accounts hold {} yen: {}",
        Yen(totals.owed),
        Yen(totals.held),
        totals.verdict()
    )?;
    println!(rt;
        "# {} made, {} left",
        Several(book.made() as u64, Noun::Entry),
        Several(book.left() as u64, Noun::Entry)
    )
}

pub(crate) fn write_no_ledger(rt: &HostRuntime, counts: &Counts) -> io::Result<()> {
    println!(rt; "# no ledger was opened")?;
    write_counts(rt, counts)
}

fn write_opening(rt: &HostRuntime, opening: &Opening) -> io::Result<()> {
    let settings = opening.settings;
    println!(rt; "# closed: a {} book", opening.layout.kind)?;
    println!(rt;
        "# points rate {}, funding divisor {}, funding cap {}, margin {} percent; slots: {} for lots, {} for orders",
        settings.points_rate(),
        settings.funding_divisor(),
        settings.funding_cap(),
        settings.margin_percent(),
        opening.layout.lots,
        opening.layout.orders,
    )
}

fn write_counts(rt: &HostRuntime, counts: &Counts) -> io::Result<()> {
    println!(rt;
        "# {} taken, {} refused",
        Several(counts.taken, Noun::Call),
        Several(counts.refused, Noun::Call)
    )?;
    for why in REFUSALS {
        let count = counts.refused_with(why);
        if count > 0 {
            println!(rt;
                "#   {} refused with {}: {why}",
                Several(count, Noun::Call),
                u8::from(why)
            )?;
        }
    }
    if counts.unreadable > 0 {
        println!(rt; "# {} unreadable", Several(counts.unreadable, Noun::Line))?;
    }
    if counts.early > 0 {
        println!(rt;
            "# {} came before any ledger",
            Several(counts.early, Noun::Command)
        )?;
    }
    Ok(())
}
