ghost use Rattle.std.specs.Prelude.{◌≡◌};
ghost use Rattle.terms.specs.Bands.{beyond, outside};

// The price lies further from the reference than so many percent of it.
fn beyond(percent: u8, reference: u32, price: u32) -> bool
    ensures { result ≡ beyond percent reference price }
{
    let allowed = percent as u64 * reference as u64;
    100 * price.abs_diff(reference) as u64 > allowed
}

// The price lies beyond 15 % of the base price, if there is one, or beyond 5 % of spot.
pub fn is_outside(price: u32, base: Option<u32>, spot: u32) -> bool
    ensures { result ≡ outside price base spot }
{
    base.is_some_and(|base| beyond(15, base, price)) || beyond(5, spot, price)
}
