ghost use Rattle.std.specs.Prelude.{◌≡◌, IfOk};
ghost use Rattle.book.specs.Grid.{amounts};
ghost use Rattle.full_book.specs.Rows.{rows_held, rows_places};

use crate::row_book::RowBook;
use quantity::interface::Quantity;
use std::alloc::{AllocError, Global};
use std::marker::PhantomData;

/// A full book that owns its rows.
pub type StoredFullBook<K> = RowBook<Vec<<K as Quantity>::Row>, K>;

impl<K: Quantity> StoredFullBook<K> {
    /// A book of 3,200 places with every holding zero, or want of memory.
    #[tactic(auto, using(crate::proofs::Tables::zeros_empty))]
    pub fn new(heap: Global) -> Result<StoredFullBook<K>, AllocError>
        ensures empty { IfOk result (λ b. amounts K.measure (rows_held K.measure b.rows.items) ≡ (λ _ _. K.measure.none)) }
        ensures places { IfOk result (λ b. rows_places b.rows.items ≡ 3200) }
    {
        // No `vec!`, which clones: `Copy` does not promise that a clone is the same.
        let mut rows = Vec::new(heap);
        rows.resize(3200, K::zero().row())?;
        Ok(RowBook {
            rows,
            quantity: PhantomData,
        })
    }
}
