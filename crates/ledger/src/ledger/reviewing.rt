ghost use Rattle.std.specs.Prelude.{◌≡◌, ◌≤◌};
ghost use Rattle.rules.specs.Valuation.{spot_of, mark_of, standing, reviewed, call_cleared};
ghost use Rattle.ledger.specs.View.{view, Untouched};

use crate::ledger::Ledger;
use accounts::Standing;
use accounts::review::clear;
use book::Book;
use reviews::held::{review, standing_of};
use terms::{Price, Valuation};

impl Ledger<'_> {
    // Spot, or 0 before the first: then there is no lot and no order that it could value, so an Option would be unwrapped to no purpose.
    fn spot_or_nought(&self) -> Price
        ensures { result.yen ≡ spot_of (view self.now) }
    {
        Price {
            yen: self.spot.unwrap_or(0),
        }
    }

    // The price that equity and market orders are valued at: the last CFD price, or spot before any fill.
    pub(crate) fn mark(&self) -> Price
        ensures { result.yen ≡ mark_of (view self.now) }
    {
        Price {
            yen: self.last.unwrap_or(self.spot_or_nought().yen),
        }
    }

    // What the accounts are valued by.
    fn valuation(&self) -> Valuation
        ensures settings { result.settings ≡ self.now.settings }
        ensures spot { result.spot ≡ spot_of (view self.now) }
        ensures mark { result.mark.yen ≡ mark_of (view self.now) }
    {
        Valuation {
            settings: self.settings,
            spot: self.spot_or_nought().yen,
            mark: self.mark(),
        }
    }

    // How an account stands: equity, requirement, margin and units. The bound is promised as in `standing_of`.
    pub fn standing<B: Book>(&self, book: &B, account: u8) -> Standing
        ensures value { result ≡ standing (view self.now) (B.meaning book.now) account }
        ensures small { result.margin ≤ 200000000000000000 }
    {
        standing_of(book, account, &self.lots, &self.orders, &self.valuation())
    }

    // Reviews every account, as every taken call ends.
    #[tactic(auto, using(orders::proofs::Numbers::rising_kept, rules::proofs::Reviewing::valued_kept))]
    pub(crate) fn review<B: Book>(&mut self, book: &B)
        ensures view { view self.new ≡ reviewed (B.meaning book.now) (view self.old) }
        ensures slots { Untouched 0 self.old self.new }
    {
        let valuation = self.valuation();
        review(
            book,
            &mut self.accounts,
            &self.lots,
            &mut self.orders,
            &valuation,
        );
    }

    // Makes a called account sound again, if its equity now covers the requirement or it holds no lot.
    pub(crate) fn clear_call<B: Book>(&mut self, book: &B, account: u8)
        ensures view { view self.new ≡ call_cleared account (B.meaning book.now) (view self.old) }
        ensures slots { Untouched 0 self.old self.new }
    {
        let standing = self.standing(book, account);
        let state = self.accounts.state(account);
        self.accounts.set(account, clear(state, standing));
    }
}
