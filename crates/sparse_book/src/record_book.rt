ghost use Rattle.std.specs.Prelude.{◌≡◌, true, length};
ghost use Rattle.std.specs.Result.{result_err};
ghost use Rattle.book.specs.Numbers.{answer_number};
ghost use Rattle.book.specs.Grid.{amounts};
ghost use Rattle.book.specs.Calls.{everything, changed, change_refusal, raise_refusal, lower_refusal, raised, lowered};
ghost use Rattle.book.specs.Rest.{ChangesHoldings};
ghost use Rattle.sparse_book.specs.Records.{apart, records_held, changed_slots, raised_slots, lowered_slots};

use crate::record::Record;
use crate::records;
use book::answers::{BookRefusal, Cause};
use book::interface::Book;
use book::range::Position;
use quantity::interface::Quantity;
use record_list::slots::Slots;
use std::marker::PhantomData;

/// A book over slots for records, lent or owned: it keeps only holdings that are not zero, and has as many places as slots.
/// A slot without a record is free, and so is one whose record tells zero. Records are looked at from the front and never move.
// Slots and no map: the lent kind has no heap, and a raise allocates nothing.
#[derive(Drop)]
pub struct RecordBook<M: Slots<Slot = Option<Record<K::Row>>>, K: Quantity> {
    pub(crate) slots: M,
    pub(crate) quantity: PhantomData<K>,
    ghost apart: { apart (M.slots slots) ≡ true },
}

impl<M: Slots<Slot = Option<Record<K::Row>>>, K: Quantity> RecordBook<M, K> {
    // Makes a holding `new`, refuses as told where that is none, or where there is no free slot. `new` and `refusal` are apart as in the full book.
    #[tactic(auto, using(crate::proofs::Freeing::apart_released, crate::proofs::Slots::held_told, crate::proofs::Settling::zero_amounts, crate::proofs::Settling::some_amounts, crate::proofs::Freeing::gone, crate::proofs::Taking::taken_apart, crate::proofs::Settling::full_is), unfolding(crate::specs::Records::settled, crate::specs::Records::place_for))]
    fn change(
        &mut self,
        at: Position,
        new: Option<K>,
        refusal: BookRefusal,
    ) -> Result<(), BookRefusal>
        ensures answer { result_err result ≡ change_refusal K.measure (records_held K.measure (M.slots self.old.slots)) (length (M.slots self.old.slots)) refusal (everything at.provider at.quarter) at.provider at.quarter new }
        ensures slots { M.slots self.new.slots ≡ changed_slots K.measure (M.slots self.old.slots) at.provider at.quarter (result_err result) new }
        ensures after { amounts K.measure (records_held K.measure (M.slots self.new.slots)) ≡ changed K.measure (records_held K.measure (M.slots self.old.slots)) at.provider at.quarter (result_err result) new }
        ensures places { length (M.slots self.new.slots) ≡ length (M.slots self.old.slots) }
        ensures lender { M.loan self.new.slots ≡ M.loan self.old.slots }
    {
        let quantity = new.ok_or(refusal)?;
        let told = records::find(self.slots.slots(), at);
        if quantity.is_zero() {
            records::release(&mut self.slots, told);
            return Ok(());
        }
        // No `?`: after `ok_or(..)?` the proof of this refusal did not close.
        let Some(place) = records::place_of::<K>(self.slots.slots(), told) else {
            return Err(BookRefusal::NoFreePlace);
        };
        let row = quantity.row();
        let Position { provider, quarter } = at;
        records::release(&mut self.slots, told);
        self.slots.write(
            place,
            Some(Record {
                provider,
                quarter,
                row,
            }),
        );
        Ok(())
    }
}

impl<M: Slots<Slot = Option<Record<K::Row>>>, K: Quantity> Book for RecordBook<M, K> {
    type Q = K;

    ghost holdings = { λ s. records_held K.measure (M.slots s.slots) };

    ghost places = { λ s. length (M.slots s.slots) };

    ghost admission = { λ _. everything };

    ghost layer_number = { λ _. 0 };

    fn holding(&self, provider: u8, quarter: u8) -> K {
        records::holding(self.slots.slots(), provider, quarter)
    }

    #[tactic(auto, using(crate::proofs::Counting::free_and_taken))]
    fn free(&self) -> usize {
        records::free::<K>(self.slots.slots())
    }

    fn admits(&self, provider: u8, quarter: u8, quantity: K) -> Result<(), Cause> {
        Ok(())
    }

    fn layer(&self) -> u8 {
        0
    }

    // The bodies of the full book: see there.
    // The interface's promises once more, beside which alone the language takes further ones: which slot is taken or freed, and that the loan stays.
    #[tactic(auto, using(book::proofs::Changes::raised_is), unfolding(crate::specs::Records::raised_slots, book::specs::Calls::raise_refusal))]
    fn raise(&mut self, provider: u8, quarter: u8, quantity: K) -> Result<(), BookRefusal>
        ensures answer { answer_number (result_err result) ≡ answer_number (raise_refusal K.measure (records_held K.measure (M.slots self.old.slots)) (length (M.slots self.old.slots)) everything provider quarter quantity) }
        ensures after { amounts K.measure (records_held K.measure (M.slots self.new.slots)) ≡ raised K.measure (records_held K.measure (M.slots self.old.slots)) (length (M.slots self.old.slots)) everything provider quarter quantity }
        ensures rest { ChangesHoldings (λ s. length (M.slots s.slots)) (λ _. everything {Q = K}) (λ _. 0) self.old self.new }
        ensures slots { M.slots self.new.slots ≡ raised_slots K.measure (M.slots self.old.slots) provider quarter quantity }
        ensures lender { M.loan self.new.slots ≡ M.loan self.old.slots }
    {
        let at = Position::new(provider, quarter)?;
        let sum = self.holding(provider, quarter).join(quantity);
        self.change(at, sum, BookRefusal::SumDoesNotFit)
    }

    #[tactic(auto, unfolding(book::specs::Calls::lower_refusal, book::specs::Calls::lowered, crate::specs::Records::lowered_slots))]
    fn lower(&mut self, provider: u8, quarter: u8, quantity: K) -> Result<(), BookRefusal>
        ensures answer { answer_number (result_err result) ≡ answer_number (lower_refusal K.measure (records_held K.measure (M.slots self.old.slots)) (length (M.slots self.old.slots)) provider quarter quantity) }
        ensures after { amounts K.measure (records_held K.measure (M.slots self.new.slots)) ≡ lowered K.measure (records_held K.measure (M.slots self.old.slots)) (length (M.slots self.old.slots)) provider quarter quantity }
        ensures rest { ChangesHoldings (λ s. length (M.slots s.slots)) (λ _. everything {Q = K}) (λ _. 0) self.old self.new }
        ensures slots { M.slots self.new.slots ≡ lowered_slots K.measure (M.slots self.old.slots) provider quarter quantity }
        ensures lender { M.loan self.new.slots ≡ M.loan self.old.slots }
    {
        let at = Position::new(provider, quarter)?;
        let left = self.holding(provider, quarter).remainder(quantity);
        self.change(at, left, BookRefusal::NoRemainder)
    }
}
