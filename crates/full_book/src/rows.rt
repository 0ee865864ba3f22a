//! The calls of a full book, over the slice of rows that it keeps:
//! the row of each provider and quarter stands at provider * 100 + quarter.
ghost use Rattle.std.specs.Prelude.{◌≡◌, ◌+◌, ◌*◌, ◌<◌, drop};
ghost use Rattle.std.specs.List.{count_by, range_with_len};
ghost use Rattle.std.specs.Result.{result_err};
ghost use Rattle.quantity.specs.Measure.{is_zero};
ghost use Rattle.book.specs.Numbers.{answer_number};
ghost use Rattle.book.specs.Grid.{amounts, taken};
ghost use Rattle.book.specs.Calls.{held_at, everything, raise_refusal, lower_refusal, raised, lowered};
ghost use Rattle.full_book.specs.Rows.{rows_held, rows_places, blanked};

use crate::lent::FullBook;
use book::answers::BookRefusal;
use book::interface::Book;
use book::range::Position;
use quantity::interface::Quantity;
use record_list::slots::fill;

// The place of the row of a position.
pub(crate) fn place(at: Position) -> usize
    ensures value { result ≡ at.provider * 100 + at.quarter }
    ensures bound { result < 3200 }
{
    usize::from(at.provider) * 100 + usize::from(at.quarter)
}

/// The holding, zero outside the range and where there are fewer than 3,200 rows.
#[tactic(auto, using(std::proofs::lemmas::Bool::Decides::nat_tests, std::proofs::lemmas::List::get_or_read), unfolding(crate::specs::Rows::rows_held))]
pub fn holding<K: Quantity>(rows: &[K::Row], provider: u8, quarter: u8) -> K
    ensures { result ≡ held_at K.measure (rows_held K.measure rows.now) provider quarter }
{
    let Ok(at) = Position::new(provider, quarter) else {
        return K::zero();
    };
    if rows.len() < 3200 {
        return K::zero();
    }
    K::of_row(rows[place(at)])
}

// How many of a provider's 100 holdings are zero.
fn free_of<K: Quantity>(rows: &[K::Row], provider: u8) -> usize
    ensures { result ≡ count_by (λ quarter. is_zero K.measure (held_at K.measure (rows_held K.measure rows.now) provider quarter)) (range_with_len 0 100) }
{
    // A loop: a chain of `filter` and `count` over numbers of a byte takes more than twice as long, since the compiler makes no vector code of it.
    let mut free: usize = 0;
    for quarter in 0..100 {
        if holding::<K>(rows, provider, quarter).is_zero() {
            free += 1;
        }
    }
    free
}

/// How many places are free: as many as there are zero holdings, or none where there are fewer than 3,200 rows.
#[tactic(auto, using(std::proofs::lemmas::Bool::Decides::nat_tests, book::proofs::Counts::total_none, book::proofs::Counts::total_more, book::proofs::Counts::taken_is, crate::proofs::Tables::few_taken, crate::proofs::Tables::zeros_counted))]
pub fn free<K: Quantity>(rows: &[K::Row]) -> usize
    ensures { result + taken K.measure (rows_held K.measure rows.now) ≡ rows_places rows.now }
{
    if rows.len() < 3200 {
        return 0;
    }
    // Not by the count of a book's holdings: `RowBook` would pass itself as a book to it, in a call of its own impl, and for that the check finds no proof.
    // A loop: `sum` asks beforehand that the sum fits, which only the promise of each count shows.
    let mut free: usize = 0;
    for provider in 0..32 {
        free += free_of::<K>(rows, provider);
    }
    free
}

/// Replaces one holding by its sum with the quantity, or changes nothing and says why.
pub fn raise<K: Quantity>(
    rows: &mut [K::Row],
    provider: u8,
    quarter: u8,
    quantity: K,
) -> Result<(), BookRefusal>
    ensures answer { answer_number (result_err result) ≡ answer_number (raise_refusal K.measure (rows_held K.measure rows.old) (rows_places rows.old) everything provider quarter quantity) }
    ensures after { amounts K.measure (rows_held K.measure rows.new) ≡ raised K.measure (rows_held K.measure rows.old) (rows_places rows.old) everything provider quarter quantity }
    ensures beyond { drop 3200 rows.new ≡ drop 3200 rows.old }
{
    let mut book: FullBook<'_, K> = FullBook::over(rows);
    book.raise(provider, quarter, quantity)
}

/// Replaces one holding by its remainder after the quantity, or changes nothing and says why.
pub fn lower<K: Quantity>(
    rows: &mut [K::Row],
    provider: u8,
    quarter: u8,
    quantity: K,
) -> Result<(), BookRefusal>
    ensures answer { answer_number (result_err result) ≡ answer_number (lower_refusal K.measure (rows_held K.measure rows.old) (rows_places rows.old) provider quarter quantity) }
    ensures after { amounts K.measure (rows_held K.measure rows.new) ≡ lowered K.measure (rows_held K.measure rows.old) (rows_places rows.old) provider quarter quantity }
    ensures beyond { drop 3200 rows.new ≡ drop 3200 rows.old }
{
    let mut book: FullBook<'_, K> = FullBook::over(rows);
    book.lower(provider, quarter, quantity)
}

/// Makes the first 3,200 rows tell zero, and leaves fewer rows as they are.
#[tactic(auto, using(std::proofs::lemmas::Bool::Decides::nat_tests), unfolding(crate::specs::Rows::blanked))]
pub fn blank<K: Quantity>(rows: &mut [K::Row])
    ensures { rows.new ≡ blanked K.measure rows.old }
{
    if rows.len() >= 3200 {
        fill(&mut rows[..3200], K::zero().row());
    }
}
