ghost use Rattle.std.specs.Prelude.{◌≡◌, map, length, None};
ghost use Rattle.book.specs.Grid.{amounts};
ghost use Rattle.sparse_book.specs.Records.{records_held};

use crate::record::Record;
use crate::record_book::RecordBook;
use quantity::interface::Quantity;
use record_list::list::RecordList;
use std::marker::PhantomData;

/// A sparse book over a list of records in lent memory.
// The list, of which the book uses every slot: one kind of list serves the requests and these records.
pub type SparseBook<'a, K> = RecordBook<RecordList<'a, Option<Record<<K as Quantity>::Row>>>, K>;

impl<'a, K: Quantity> SparseBook<'a, K> {
    /// A book with every holding zero, whatever the records told: each slot is free.
    pub fn blank(slots: &'a mut [Option<Record<K::Row>>]) -> SparseBook<'a, K>
        ensures slots { result.slots.slots.now ≡ map (λ _. None) slots.old }
        ensures empty { amounts K.measure (records_held K.measure result.slots.slots.now) ≡ (λ _ _. K.measure.none) }
        ensures places { length result.slots.slots.now ≡ length slots.old }
        ensures lender { result.slots.slots.ghost_name ≡ slots.entry.ghost_name }
    {
        RecordBook {
            slots: RecordList::filled(slots, None),
            quantity: PhantomData,
        }
    }
}
