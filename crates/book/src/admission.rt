ghost use Rattle.std.specs.Prelude.{◌≡◌};
ghost use Rattle.terms.specs.Refusals.{answer};
ghost use Rattle.book.specs.Meaning.{transfer_refusal};

use terms::Refusal;
use terms::ranges::TRANSFER_MAX;

// Whether a book with so many entries left takes a transfer: an unlawful one is refused first, then one for which no entry is left.
pub fn admit(left: u32, payer: u8, payee: u8, amount: u64) -> Result<(), Refusal>
    ensures { result ≡ answer (transfer_refusal left payer payee amount) }
{
    if payer == payee || amount < 1 || amount > TRANSFER_MAX {
        return Err(Refusal::TransferUnlawful);
    }
    if left == 0 {
        return Err(Refusal::NoEntryLeft);
    }
    Ok(())
}
