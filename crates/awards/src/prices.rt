ghost use Rattle.std.specs.Prelude.{◌≡◌, ◌*◌, ◌^◌, ◌<◌, ◌≤◌, false, slice_index};
ghost use Rattle.quantity.specs.Directions.{number};
ghost use Rattle.awards.specs.Accounts.{most_cents, most_earned};
ghost use Rattle.awards.specs.Awards.{overpriced, earns_in, award_earns};

use quantity::direction::Direction;
use quantity::reserve::ReserveQuantity;

/// The highest price, in cents.
pub(crate) const MOST_CENTS: u32 = 200_000;

/// Whether there is a price above the highest.
pub fn has_large_price(prices: &[u32]) -> bool
    ensures { result ≡ overpriced prices.now }
{
    prices.iter().any(|&price| price > MOST_CENTS)
}

// The price for a direction, zero for one without a price.
fn price_in(prices: &[u32], direction: Direction) -> u32
    ensures { result ≡ slice_index prices.now (number direction) }
{
    prices.get(direction as usize).copied().unwrap_or(0)
}

// What an award of a quantity over so many quarters earns in one direction.
fn earned_in<Q: ReserveQuantity>(
    quantity: Q,
    prices: &[u32],
    direction: Direction,
    quarters: u8,
) -> u64
    ensures value { result ≡ earns_in (Q.tenths_in quantity) prices.now quarters (number direction) }
    ensures fits { result < 2 ^ 63 }
    ensures bound { overpriced prices.now ≡ false → quarters ≤ 100 → result ≤ most_cents * 10000 * 100 }
{
    u64::from(price_in(prices, direction))
        * u64::from(quantity.tenths(direction))
        * u64::from(quarters)
}

/// What an award of a quantity over so many quarters earns.
#[tactic(auto, unfolding(crate::specs::Awards::award_earns, book::specs::Grid::total))]
pub fn award_earnings<Q: ReserveQuantity>(quantity: Q, prices: &[u32], quarters: u8) -> u64
    ensures value { result ≡ award_earns (Q.tenths_in quantity) prices.now Q.directions quarters }
    ensures bound { overpriced prices.now ≡ false → quarters ≤ 100 → result ≤ most_earned }
{
    let up = earned_in(quantity, prices, Direction::Up, quarters);
    if Q::direction_count() < 2 {
        return up;
    }
    up + earned_in(quantity, prices, Direction::Down, quarters)
}
