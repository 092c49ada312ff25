ghost use Rattle.std.specs.Prelude.{◌≡◌};
ghost use Rattle.accounts.specs.Review.{is_open, is_sound, falls, lacks, reviewed, cleared, ReviewingTwiceIsOnce, ReviewsLeaveTheRest};

use crate::standing::{Decision, Standing};
use crate::state::AccountState;
use terms::margins::{is_at_cut_level, is_short_of};
use terms::ranges::PROPRIETARY;

// Only sound and called accounts are reviewed, and may enter orders.
pub fn is_open(state: AccountState) -> bool
    ensures { result ≡ is_open state }
{
    matches!(state, AccountState::Sound | AccountState::Called { .. })
}

// Only a sound account may withdraw.
pub fn is_sound(state: AccountState) -> bool
    ensures { result ≡ is_sound state }
{
    matches!(state, AccountState::Sound)
}

// It holds lots, and equity is at or below 50 % of their requirement.
fn falls(s: Standing) -> bool
    ensures { result ≡ falls s }
{
    s.units > 0 && is_at_cut_level(s.equity, s.requirement)
}

// It needs margin, and equity is below 100 % of it.
fn lacks(s: Standing) -> bool
    ensures { result ≡ lacks s }
{
    s.margin > 0 && is_short_of(s.equity, s.margin)
}

// Reviews one account. The proprietary account is never called, cut or voided.
pub fn review(account: u8, state: AccountState, standing: Standing) -> Decision
    ensures { result ≡ reviewed account state standing }
{
    if account == PROPRIETARY || !is_open(state) {
        Decision { state, void: false }
    } else if falls(standing) {
        Decision {
            state: AccountState::CutDue,
            void: true,
        }
    } else {
        Decision {
            state,
            void: lacks(standing),
        }
    }
}

// A called account is sound again once its equity covers 100 % of the requirement, or it holds no lot.
pub fn clear(state: AccountState, standing: Standing) -> AccountState
    ensures { result ≡ cleared state standing }
{
    match state {
        AccountState::Called { .. }
            if standing.units == 0 || !is_short_of(standing.equity, standing.requirement) => {
            AccountState::Sound
        }
        _ => state,
    }
}

// A law: reviewed again on the same figures, an account stays as the first review left it; accounts that are not reviewed stay as they were.
pub fn reviews_settle()
    ensures twice { ReviewingTwiceIsOnce }
    ensures rest { ReviewsLeaveTheRest }
{}
