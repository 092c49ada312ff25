ghost use Rattle.std.specs.Prelude.{◌≡◌, ℕ, ◌<◌, ◌≤◌, if◌then◌else◌, nat_eq, slice_index_or};
ghost use Rattle.accounts.specs.declared.state.AccountState.TheVariants.{Sound};
ghost use Rattle.accounts.specs.declared.standing.Decision.{Decision};
ghost use Rattle.accounts.specs.States.{state_of};

use crate::standing::Decision;
use crate::state::AccountState;
use std::array::from_fn;

// The state of every account. An array, since there are 256 accounts and the project keeps no heap.
#[derive(Clone, Copy)]
pub struct Accounts {
    states: [AccountState; 256],
}

impl Accounts {
    // All accounts are sound.
    pub fn new() -> Accounts
        ensures { (a : ℕ) → state_of result a ≡ Sound }
    {
        Accounts {
            states: [AccountState::Sound; 256],
        }
    }

    pub fn state(&self, account: u8) -> AccountState
        ensures { result ≡ state_of self.now account }
    {
        self.states[account as usize]
    }

    // Puts one account into a state; the others keep theirs.
    pub fn set(&mut self, account: u8, state: AccountState)
        ensures { (a : ℕ) → state_of self.new a ≡ (if nat_eq account a then state else state_of self.old a) }
    {
        self.states[account as usize] = state;
    }

    // Puts every account into the state that was decided of it.
    pub fn put(&mut self, decisions: &[Decision; 256])
        ensures states { (a : ℕ) (d : Decision) → a < 256 → state_of self.new a ≡ (slice_index_or decisions.now a d).state }
        ensures rest { (a : ℕ) → 256 ≤ a → state_of self.new a ≡ state_of self.old a }
    {
        // by place: `map` would first take every decision over
        self.states = from_fn(|a| decisions[a].state);
    }
}
