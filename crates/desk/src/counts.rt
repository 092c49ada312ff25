// What became of the lines of a script. Every count stops at its type's end.
ghost use Rattle.std.specs.Prelude.{◌≡◌};
ghost use Rattle.desk.specs.Counting.{one_more, none_counted, one_taken, refused_with, one_refused, one_unreadable, one_early};

use terms::Refusal;

// One more than the largest number of a refusal.
const NUMBERS: usize = 26;

// Every refusal, by number: an enum doesn't list its variants.
pub static REFUSALS: [Refusal; 20] = [
    Refusal::TimeOutOfRange,
    Refusal::AccountOutOfRange,
    Refusal::CodeOutOfRange,
    Refusal::PriceOutOfRange,
    Refusal::QuantityOutOfRange,
    Refusal::PaymentOutOfRange,
    Refusal::NoSpotPrice,
    Refusal::OrderNotHeld,
    Refusal::OrdersDoNotMatch,
    Refusal::FillExceedsOrder,
    Refusal::FillOutsideLimit,
    Refusal::WrongHaltState,
    Refusal::WrongAccountState,
    Refusal::PositionTooLarge,
    Refusal::MarginTooSmall,
    Refusal::NoSlotLeft,
    Refusal::NoEntryLeft,
    Refusal::TicketNotInHand,
    Refusal::SettingOutOfRange,
    Refusal::TransferUnlawful,
];

#[derive(Clone, Copy)]
pub struct Counts {
    pub taken: u64,
    pub refused: u64,
    // by the refusal's number, from 6 on; a map would need memory, and counting could fail
    by_number: [u64; NUMBERS],
    pub unreadable: u64,
    // commands that came before any ledger
    pub early: u64,
}

impl Counts {
    pub(crate) fn new() -> Counts
        ensures { result ≡ none_counted }
    {
        Counts {
            taken: 0,
            refused: 0,
            by_number: [0; NUMBERS],
            unreadable: 0,
            early: 0,
        }
    }

    pub(crate) fn refused_with(&self, why: Refusal) -> u64
        ensures { result ≡ refused_with self.now why }
    {
        self.by_number[usize::from(u8::from(why))]
    }

    pub(crate) fn add_taken(&mut self)
        ensures { self.new ≡ one_taken self.old }
    {
        add_one(&mut self.taken);
    }

    pub(crate) fn add_refused(&mut self, why: Refusal)
        ensures { self.new ≡ one_refused self.old why }
    {
        let number = usize::from(u8::from(why));
        add_one(&mut self.refused);
        add_one(&mut self.by_number[number]);
    }

    pub(crate) fn add_unreadable(&mut self)
        ensures { self.new ≡ one_unreadable self.old }
    {
        add_one(&mut self.unreadable);
    }

    pub(crate) fn add_early(&mut self)
        ensures { self.new ≡ one_early self.old }
    {
        add_one(&mut self.early);
    }
}

fn add_one(count: &mut u64)
    ensures { count.new ≡ one_more count.old }
{
    *count = count.saturating_add(1);
}
