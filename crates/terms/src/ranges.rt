// Units and ranges, each at this one place.
// Money is in sen, a hundredth of a yen; a quantity is in units of 0.01 BTC; a price is whole yen for one BTC, so price times quantity is sen.
// Time is seconds since midnight, Japan time, of the first day.

pub const SEN_PER_YEN: u64 = 100;

// Accounts: the bank, the company, its proprietary account, and the customers up to 255.
pub const BANK: u8 = 0;

pub const COMPANY: u8 = 1;

pub const PROPRIETARY: u8 = 2;

pub const ACCOUNTS: usize = 256;

// Seconds of a day.
pub const DAY_LENGTH: u32 = 86_400;
// The last second of day 1,096.
pub const LAST_TIME: u32 = 94_694_399;

pub const PRICE_MAX: u32 = 100_000_000;

pub const ORDER_QUANTITY_MAX: u32 = 10_000;

pub const FILL_QUANTITY_MAX: u32 = 50_000;
// The most that an account may hold and have ordered on one side.
pub const POSITION_MAX: u32 = 50_000;
// Yen of one deposit or withdrawal.
pub const PAYMENT_MAX: u64 = 10_000_000_000;

pub const POINTS_RATE_MAX: u32 = 1_000;

pub const FUNDING_DIVISOR_MIN: u32 = 1;

pub const FUNDING_DIVISOR_MAX: u32 = 100;

pub const FUNDING_CAP_MAX: u32 = 4_000;

pub const MARGIN_PERCENT_MIN: u32 = 50;

pub const MARGIN_PERCENT_MAX: u32 = 100;

// Sen of one transfer in a book.
pub const TRANSFER_MAX: u64 = 80_000_000_000_000;
// Entries of one book.
pub const ENTRIES_MAX: u32 = 65_536;
// Slots that a ledger uses for lots, and for orders.
pub const SLOTS_MAX: usize = 4_096;

pub const ORDER_NUMBER_MAX: u32 = 4_294_967_295;
