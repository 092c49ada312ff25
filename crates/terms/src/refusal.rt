ghost use Rattle.std.specs.Prelude.{◌≡◌};
ghost use Rattle.terms.specs.Refusals.{number_of};

use thiserror::Error;

// Why a call was refused, with the number under which a host knows it.
#[derive(Clone, Copy, PartialEq, Eq, Debug, Drop, Error)]
pub enum Refusal {
    #[error("the time lies before the ledger's time or after its last second, 94,694,399")]
    TimeOutOfRange = 6,
    #[error("the account is outside 2 to 255")]
    AccountOutOfRange = 7,
    #[error("the side or outcome is neither 0 nor 1")]
    CodeOutOfRange = 8,
    #[error("the price is outside 1 to 100,000,000 yen")]
    PriceOutOfRange = 9,
    #[error("the quantity is outside 1 to 10,000 units in an order, or 1 to 50,000 in a fill")]
    QuantityOutOfRange = 10,
    #[error("the deposit or withdrawal is outside 1 to 10,000,000,000 yen")]
    PaymentOutOfRange = 11,
    #[error("no spot price has come yet")]
    NoSpotPrice = 12,
    #[error("no such order is held, or it is a cut order, which cannot be cancelled")]
    OrderNotHeld = 13,
    #[error("the orders are not a buy and a sell of two accounts")]
    OrdersDoNotMatch = 14,
    #[error("the fill is larger than what remains of an order")]
    FillExceedsOrder = 15,
    #[error("the price is above the buy order's limit or below the sell order's")]
    FillOutsideLimit = 16,
    #[error("trading is halted, or there is no halt to end, or its 300 seconds are not over")]
    WrongHaltState = 17,
    #[error("the account's state does not allow the call")]
    WrongAccountState = 18,
    #[error("position and orders of that side would exceed 50,000 units")]
    PositionTooLarge = 19,
    #[error("the account's equity or balance does not cover it")]
    MarginTooSmall = 20,
    #[error("no slot or order number is left")]
    NoSlotLeft = 21,
    #[error("the book has too few entries left")]
    NoEntryLeft = 22,
    #[error("the account is not cut in hand under the ticket's order number")]
    TicketNotInHand = 23,
    #[error("a setting is outside its range")]
    SettingOutOfRange = 24,
    #[error("payer and payee are one account, or the amount is outside 1 to 80,000,000,000,000 sen")]
    TransferUnlawful = 25,
}

impl From<Refusal> for u8 {
    fn from(refusal: Refusal) -> u8
        ensures { result ≡ number_of refusal }
    {
        refusal as u8
    }
}
