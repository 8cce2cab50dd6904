// The limit of what a make may be handed to offer.
ghost use Rattle.std.specs.Prelude.{◌≡◌, length, nat_le};
ghost use Rattle.handshake.specs.Limits.{offer_limit};

use cell::cells::Cell;

const OFFER_LIMIT: usize = 65_535;

// The most cells that may be on offer.
pub fn most_offers() -> usize
    ensures { result ≡ offer_limit }
{
    OFFER_LIMIT
}

// Whether a make may offer so many cells.
pub fn may_offer(offers: &[Cell]) -> bool
    ensures { result ≡ nat_le (length offers.now) offer_limit }
{
    offers.len() <= most_offers()
}
