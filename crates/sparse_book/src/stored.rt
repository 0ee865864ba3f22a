ghost use Rattle.std.specs.Prelude.{◌≡◌, length, IfOk};
ghost use Rattle.book.specs.Grid.{amounts};
ghost use Rattle.sparse_book.specs.Records.{records_held};

use crate::record::Record;
use crate::record_book::RecordBook;
use quantity::interface::Quantity;
use std::alloc::{AllocError, Global};
use std::marker::PhantomData;

/// A sparse book that owns its slots.
pub type StoredSparseBook<K> = RecordBook<Vec<Option<Record<<K as Quantity>::Row>>>, K>;

impl<K: Quantity> StoredSparseBook<K> {
    /// A book of as many places as are asked, with every holding zero, or want of memory.
    #[tactic(auto, using(crate::proofs::Blank::resized, crate::proofs::Blank::free_apart, crate::proofs::Blank::free_empty))]
    pub fn new(heap: Global, places: usize) -> Result<StoredSparseBook<K>, AllocError>
        ensures empty { IfOk result (λ b. amounts K.measure (records_held K.measure b.slots.items) ≡ (λ _ _. K.measure.none)) }
        ensures places { IfOk result (λ b. length b.slots.items ≡ places) }
    {
        let mut slots: Vec<Option<Record<K::Row>>> = Vec::new(heap);
        slots.resize(places, None)?;
        Ok(RecordBook {
            slots,
            quantity: PhantomData,
        })
    }
}
