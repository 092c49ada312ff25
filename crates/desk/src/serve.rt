// Answers the lines of a script, one after another.
ghost use Rattle.std.specs.Prelude.{◌≡◌, false, ◌||◌, is_some, IfOk, if◌then◌else◌, MatchOption};
ghost use Rattle.desk.specs.Answers.{open_counted};
ghost use Rattle.commands.specs.Commands.{Holds};
ghost use Rattle.desk.specs.Counting.{one_unreadable};
ghost use Rattle.workings.specs.Lines.{skipped};
ghost use Rattle.commands.specs.Openings.{request_lawful, Admitted};
ghost use Rattle.desk.specs.Serving.{commanded, command_counted, early_counted, Opens};

use crate::answer::{Answer, admit_counted, deposit};
use crate::counts::Counts;
use crate::lines::{Lines, too_long};
use crate::report::{write_closing, write_no_ledger, write_state, write_statement};
use book::{Book, Entry, JournalBook, RunningBook};
use commands::command::{Command, parse};
use commands::line::{is_skipped, split, text_of};
use commands::opening::{Kind, Opening, Request};
use commands::unreadable::Unreadable;
use std::io;
use std::io::BufRead;

// A desk at work: where it prints, and what it has counted since it last closed a ledger.
#[derive(Drop)]
struct Desk<'a> {
    rt: &'a HostRuntime,
    counts: Counts,
}

pub(crate) fn run<R: BufRead + Drop>(rt: &HostRuntime, reader: R) -> io::Result<()> {
    let mut lines = Lines::new(rt.alloc(), reader);
    let mut desk = Desk {
        rt,
        counts: Counts::new(),
    };
    let mut next = desk.answer_lines(&mut lines, |desk, command| desk.answer_early(command))?;
    if next.is_none() {
        return write_no_ledger(rt, &desk.counts);
    }
    // Counts its turns, since it has to be proved to end. Tried, with what is left of the lines as a measure of a `while let`: that an answered line leaves fewer was not proved.
    for _ in 0..u64::MAX {
        let Some(opening) = next else {
            return Ok(());
        };
        next = desk.with_ledger(&opening, &mut lines)?;
        desk.counts = Counts::new();
    }
    Err(too_long())
}

impl<'a> Desk<'a> {
    // Answers the commands of a script, until one of them leads to a ledger.
    fn answer_lines<R: BufRead, F: FnMut(&mut Desk<'a>, Command) -> io::Result<Option<Opening>>>(
        &mut self,
        lines: &mut Lines<R>,
        mut answer: F,
    ) -> io::Result<Option<Opening>>
        requires { (state : F) (desk : _) (command : _) → F.pre state desk command }
    {
        for _ in 0..u64::MAX {
            let Some(line) = lines.next()? else {
                return Ok(None);
            };
            if let Some(command) = self.command_of(line)? {
                let opening = answer(self, command)?;
                if opening.is_some() {
                    return Ok(opening);
                }
            }
        }
        Err(too_long())
    }

    // Answers a command before any ledger, but for a taken `open`, which it hands on.
    fn answer_early(&mut self, command: Command) -> io::Result<Option<Opening>>
        ensures counts { self.new.counts ≡ early_counted command self.old.counts }
        ensures opens { IfOk result (Opens command) }
    {
        match command {
            Command::Open(request) => return self.admit_answered(request),
            Command::Deposit { .. } | Command::State | Command::Statement => {
                self.counts.add_early();
                println!(self.rt; "{}", Answer::NoLedger)?;
            }
            Command::Work(working) => println!(self.rt; "# {working}")?,
        }
        Ok(None)
    }

    // Makes the book of an opening and serves it until the next taken `open`. Each kind is a type of its own; a `dyn Book` would be made in the same two arms, of books declared before them.
    fn with_ledger<R: BufRead>(
        &mut self,
        opening: &Opening,
        lines: &mut Lines<R>,
    ) -> io::Result<Option<Opening>> {
        match opening.layout.kind {
            Kind::Running => {
                let mut book = RunningBook::new(opening.layout.entries);
                self.serve(opening, &mut book, lines)
            }
            Kind::Journal => {
                let mut slots = vec![in self.rt.alloc(); Entry {
                    payer: 0,
                    payee: 0,
                    amount: 0
                }; opening.layout.entries]?;
                let mut book = JournalBook::new(slots.as_mut_slice());
                self.serve(opening, &mut book, lines)
            }
        }
    }

    fn serve<B: Book, R: BufRead>(
        &mut self,
        opening: &Opening,
        book: &mut B,
        lines: &mut Lines<R>,
    ) -> io::Result<Option<Opening>> {
        println!(self.rt; "{}", Answer::Opened)?;
        let next = self.answer_lines(lines, |desk, command| desk.answer_command(book, command))?;
        write_closing(self.rt, opening, book, &self.counts)?;
        Ok(next)
    }

    // The command of a line, if it holds one; an unreadable line is answered here.
    fn command_of(&mut self, line: &[u8]) -> io::Result<Option<Command>>
        ensures holds { IfOk result (Holds line.now) }
        ensures counts { IfOk result (λ o. self.new.counts ≡ (if is_some o || skipped line.now then self.old.counts else one_unreadable self.old.counts)) }
    {
        if is_skipped(line) {
            return Ok(None);
        }
        // by a match: `and_then` would hold the `?` of `split` in its closure
        let command = match text_of(line) {
            Ok(text) => parse(split(self.rt.alloc(), text)?.as_slice()),
            Err(why) => Err(why),
        };
        match command {
            Ok(command) => Ok(Some(command)),
            Err(why) => {
                self.answer_unreadable(why)?;
                Ok(None)
            }
        }
    }

    fn answer_unreadable(&mut self, why: Unreadable<'_>) -> io::Result<()>
        ensures { self.new.counts ≡ one_unreadable self.old.counts }
    {
        self.counts.add_unreadable();
        println!(self.rt; "unreadable: {why}")
    }

    // Answers a command but for a taken `open`, which it hands on.
    fn answer_command<B: Book>(
        &mut self,
        book: &mut B,
        command: Command,
    ) -> io::Result<Option<Opening>>
        ensures leaves { B.meaning book.new ≡ commanded (B.meaning book.old) command }
        ensures counts { self.new.counts ≡ command_counted (B.meaning book.old) command self.old.counts }
        ensures opens { IfOk result (Opens command) }
    {
        match command {
            Command::Open(request) => return self.admit_answered(request),
            Command::Deposit { account, yen } => {
                let call = deposit(book, account, yen, &mut self.counts);
                println!(self.rt; "{}", Answer::Called(call))?;
            }
            Command::State => write_state(self.rt, book)?,
            Command::Statement => write_statement(self.rt, book)?,
            Command::Work(working) => println!(self.rt; "# {working}")?,
        }
        Ok(None)
    }

    // A refused `open` is answered here; a taken one once its book is made.
    fn admit_answered(&mut self, request: Request) -> io::Result<Option<Opening>>
        ensures counts { self.new.counts ≡ open_counted request self.old.counts }
        ensures opens { IfOk result (λ o. MatchOption o (request_lawful request ≡ false) (Admitted request)) }
    {
        match admit_counted(request, &mut self.counts) {
            Ok(opening) => Ok(Some(opening)),
            Err(why) => {
                println!(self.rt; "{}", Answer::Called(Err(why)))?;
                Ok(None)
            }
        }
    }
}
