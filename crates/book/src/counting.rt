ghost use Rattle.std.specs.Prelude.{◌≡◌, ◌≤◌, not};
ghost use Rattle.quantity.specs.Measure.{is_zero};
ghost use Rattle.std.specs.List.{count_by, range_with_len};
ghost use Rattle.book.specs.Calls.{held_at};
ghost use Rattle.book.specs.Grid.{taken};

use crate::interface::Book;
use quantity::interface::Quantity;

// How many holdings of a provider are not zero.
fn count_quarters<B: Book>(book: &B, provider: u8) -> usize
    ensures value { result ≡ count_by (λ t. not (is_zero B.Q.measure (held_at B.Q.measure (B.holdings book.now) provider t))) (range_with_len 0 100) }
    ensures bound { result ≤ 100 }
{
    // A loop: of a chain of `filter` and `count` over numbers of a byte the compiler makes no vector code.
    let mut count = 0;
    for quarter in 0..100u8 {
        if !book.holding(provider, quarter).is_zero() {
            count += 1;
        }
    }
    count
}

/// How many holdings of a book are not zero.
#[tactic(auto, using(crate::proofs::Counts::total_none, crate::proofs::Counts::total_more, crate::proofs::Counts::taken_is, crate::proofs::Ranges::count_filled))]
pub fn count_holdings<B: Book>(book: &B) -> usize
    ensures value { result ≡ taken B.Q.measure (B.holdings book.now) }
    ensures bound { result ≤ 3200 }
{
    // A `for`, since the check finds no bound for the sum of what a chain counts.
    let mut count = 0;
    for provider in 0..32u8 {
        count += count_quarters(book, provider);
    }
    count
}
