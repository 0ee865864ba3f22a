ghost use Rattle.std.specs.Prelude.{◌≡◌};
ghost use Rattle.book.specs.Grid.{amounts};
ghost use Rattle.full_book.specs.Rows.{rows_held, blanked};

use crate::row_book::RowBook;
use crate::rows;
use quantity::interface::Quantity;
use std::marker::PhantomData;

/// A full book over lent rows.
pub type FullBook<'a, K> = RowBook<&'a mut [<K as Quantity>::Row], K>;

impl<'a, K: Quantity> FullBook<'a, K> {
    /// The book that these rows tell, as they are.
    pub fn over(rows: &'a mut [K::Row]) -> FullBook<'a, K>
        ensures rows { result.rows.now ≡ rows.old }
        ensures lender { result.rows.ghost_name ≡ rows.entry.ghost_name }
    {
        RowBook {
            rows,
            quantity: PhantomData,
        }
    }

    /// A book with every holding zero, whatever the rows told.
    #[tactic(auto, using(crate::proofs::Tables::blank_empty))]
    pub fn blank(rows: &'a mut [K::Row]) -> FullBook<'a, K>
        ensures rows { result.rows.now ≡ blanked K.measure rows.old }
        ensures empty { amounts K.measure (rows_held K.measure result.rows.now) ≡ (λ _ _. K.measure.none) }
        ensures lender { result.rows.ghost_name ≡ rows.entry.ghost_name }
    {
        rows::blank::<K>(rows);
        FullBook::over(rows)
    }
}
