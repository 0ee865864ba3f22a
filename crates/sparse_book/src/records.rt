//! What a sparse book asks of its slots, and how it frees one. A slot without a record is free,
//! and so is one whose record tells zero. Records are looked at from the front.
ghost use Rattle.std.specs.Prelude.{◌≡◌, position, if◌then◌else◌};
ghost use Rattle.quantity.specs.Measure.{is_zero};
ghost use Rattle.book.specs.Calls.{held_at};
ghost use Rattle.sparse_book.specs.Records.{keyed, vacant, records_held, told_by_slot, told_by_place, vacancies, released};

use crate::record::Record;
use book::range::Position;
use quantity::interface::Quantity;
use record_list::slots::Slots;

// By fields: lent memory holds plain numbers and no `Position`. By a match, as below, and not by `is_some_and`: of that the compiler
// makes a loop that reads the record of an empty slot, too, which takes up to half as long again.
fn has_key<R: Copy>(slot: Option<Record<R>>, at: Position) -> bool
    ensures { result ≡ keyed at.provider at.quarter slot }
{
    match slot {
        Some(record) => record.provider == at.provider && record.quarter == at.quarter,
        None => false,
    }
}

fn is_vacant<K: Quantity>(slot: Option<Record<K::Row>>) -> bool
    ensures { result ≡ vacant K.measure slot }
{
    match slot {
        Some(record) => K::of_row(record.row).is_zero(),
        None => true,
    }
}

// The place of the record of a position.
pub(crate) fn find<R: Copy>(slots: &[Option<Record<R>>], at: Position) -> Option<usize>
    ensures { result ≡ position (keyed at.provider at.quarter) slots.now }
{
    slots.iter().position(|slot| has_key(*slot, at))
}

// The place of the first free slot.
fn first_vacant<K: Quantity>(slots: &[Option<Record<K::Row>>]) -> Option<usize>
    ensures { result ≡ position (vacant K.measure) slots.now }
{
    slots.iter().position(|slot| is_vacant::<K>(*slot))
}

fn slot_told<K: Quantity>(slot: Option<Record<K::Row>>) -> K
    ensures { result ≡ told_by_slot K.measure slot }
{
    slot.map_or(K::zero(), |record| K::of_row(record.row))
}

// What the record at a place tells: zero where there is none. The place is as the search answers it; by `and_then` the proof did not close.
fn told_at<K: Quantity>(slots: &[Option<Record<K::Row>>], place: Option<usize>) -> K
    ensures { result ≡ told_by_place K.measure slots.now place }
{
    let Some(i) = place else {
        return K::zero();
    };
    slot_told(slots.get(i).copied().flatten())
}

/// The holding, zero outside the range.
pub fn holding<K: Quantity>(slots: &[Option<Record<K::Row>>], provider: u8, quarter: u8) -> K
    ensures { result ≡ held_at K.measure (records_held K.measure slots.now) provider quarter }
{
    let Ok(at) = Position::new(provider, quarter) else {
        return K::zero();
    };
    told_at(slots, find(slots, at))
}

/// How many slots are free.
#[tactic(auto, using(std::proofs::lemmas::List::Sums::count_by_more_yes, std::proofs::lemmas::List::Sums::count_by_more_no))]
pub fn free<K: Quantity>(slots: &[Option<Record<K::Row>>]) -> usize
    ensures { result ≡ vacancies K.measure slots.now }
{
    // A loop: a chain of `filter` and `count` over slots for bands takes about twice as long.
    let mut free: usize = 0;
    for slot in slots {
        if is_vacant::<K>(*slot) {
            free += 1;
        }
    }
    free
}

// The slot that a holding which is not zero takes: that of its record if this is not free, else the first free one.
pub(crate) fn place_of<K: Quantity>(
    slots: &[Option<Record<K::Row>>],
    told: Option<usize>,
) -> Option<usize>
    ensures { result ≡ (if is_zero K.measure (told_by_place K.measure slots.now told) then position (vacant K.measure) slots.now else told) }
{
    let held: K = told_at(slots, told);
    if held.is_zero() {
        first_vacant::<K>(slots)
    } else {
        told
    }
}

// Frees the slot at a place as the search answers it, if there is one.
pub(crate) fn release<M: Slots<Slot = Option<Record<R>>>, R: Copy>(
    slots: &mut M,
    place: Option<usize>,
)
    ensures slots { M.slots slots.new ≡ released place (M.slots slots.old) }
    ensures loan { M.loan slots.new ≡ M.loan slots.old }
{
    if let Some(i) = place {
        slots.write(i, None);
    }
}
