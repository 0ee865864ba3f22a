ghost use Rattle.std.specs.Prelude.{◌≡◌, drop};
ghost use Rattle.std.specs.Result.{result_err};
ghost use Rattle.book.specs.Numbers.{answer_number};
ghost use Rattle.book.specs.Grid.{amounts};
ghost use Rattle.book.specs.Calls.{everything, changed, change_refusal, raise_refusal, lower_refusal, raised, lowered};
ghost use Rattle.book.specs.Rest.{ChangesHoldings};
ghost use Rattle.full_book.specs.Rows.{rows_held, rows_places};

use crate::rows;
use book::answers::{BookRefusal, Cause};
use book::interface::Book;
use book::range::Position;
use quantity::interface::Quantity;
use record_list::slots::Slots;
use std::marker::PhantomData;

/// A book over rows, lent or owned, one for each of 32 providers and 100 quarters: 3,200 places.
/// Over fewer rows it has no place and holds zero. Rows beyond 3,200 are never touched.
#[derive(Drop)]
pub struct RowBook<M, K> {
    pub(crate) rows: M,
    pub(crate) quantity: PhantomData<K>,
}

impl<M: Slots<Slot = K::Row>, K: Quantity> RowBook<M, K> {
    // Replaces a holding by `new`, refuses as told where that is none, or where there is no free place.
    // Two parameters and no `Result`: what the quantity's call answered alone decides the holdings afterwards.
    #[tactic(auto, using(std::proofs::lemmas::Bool::Decides::nat_tests, crate::proofs::Tables::few_zero, crate::proofs::Tables::few_stays, crate::proofs::Tables::held_written, crate::proofs::Tables::never_full))]
    fn change(
        &mut self,
        at: Position,
        new: Option<K>,
        refusal: BookRefusal,
    ) -> Result<(), BookRefusal>
        ensures answer { result_err result ≡ change_refusal K.measure (rows_held K.measure (M.slots self.old.rows)) (rows_places (M.slots self.old.rows)) refusal (everything at.provider at.quarter) at.provider at.quarter new }
        ensures after { amounts K.measure (rows_held K.measure (M.slots self.new.rows)) ≡ changed K.measure (rows_held K.measure (M.slots self.old.rows)) at.provider at.quarter (result_err result) new }
        ensures places { rows_places (M.slots self.new.rows) ≡ rows_places (M.slots self.old.rows) }
        ensures beyond { drop 3200 (M.slots self.new.rows) ≡ drop 3200 (M.slots self.old.rows) }
        ensures lender { M.loan self.new.rows ≡ M.loan self.old.rows }
    {
        let quantity = new.ok_or(refusal)?;
        if self.rows.slots().len() >= 3200 {
            self.rows.write(rows::place(at), quantity.row());
            return Ok(());
        }
        if quantity.is_zero() {
            Ok(())
        } else {
            Err(BookRefusal::NoFreePlace)
        }
    }
}

impl<M: Slots<Slot = K::Row>, K: Quantity> Book for RowBook<M, K> {
    type Q = K;

    ghost holdings = { λ s. rows_held K.measure (M.slots s.rows) };

    ghost places = { λ s. rows_places (M.slots s.rows) };

    ghost admission = { λ _. everything };

    ghost layer_number = { λ _. 0 };

    fn holding(&self, provider: u8, quarter: u8) -> K {
        rows::holding(self.rows.slots(), provider, quarter)
    }

    fn free(&self) -> usize {
        rows::free::<K>(self.rows.slots())
    }

    fn admits(&self, provider: u8, quarter: u8, quantity: K) -> Result<(), Cause> {
        Ok(())
    }

    fn layer(&self) -> u8 {
        0
    }

    // The bodies of `raise`, `lower`, `admits` and `layer` are those of the sparse book too. A trait that has them once would have to state of `change`
    // what each of the two books promises besides, and the calls here would still have to repeat the interface's promises beside it.
    // The interface's promises once more, beside which alone the language takes further ones: rows beyond 3,200 stay, and so does the loan.
    #[tactic(auto, using(book::proofs::Changes::raised_is), unfolding(book::specs::Calls::raise_refusal))]
    fn raise(&mut self, provider: u8, quarter: u8, quantity: K) -> Result<(), BookRefusal>
        ensures answer { answer_number (result_err result) ≡ answer_number (raise_refusal K.measure (rows_held K.measure (M.slots self.old.rows)) (rows_places (M.slots self.old.rows)) everything provider quarter quantity) }
        ensures after { amounts K.measure (rows_held K.measure (M.slots self.new.rows)) ≡ raised K.measure (rows_held K.measure (M.slots self.old.rows)) (rows_places (M.slots self.old.rows)) everything provider quarter quantity }
        ensures rest { ChangesHoldings (λ s. rows_places (M.slots s.rows)) (λ _. everything {Q = K}) (λ _. 0) self.old self.new }
        ensures beyond { drop 3200 (M.slots self.new.rows) ≡ drop 3200 (M.slots self.old.rows) }
        ensures lender { M.loan self.new.rows ≡ M.loan self.old.rows }
    {
        let at = Position::new(provider, quarter)?;
        let sum = self.holding(provider, quarter).join(quantity);
        self.change(at, sum, BookRefusal::SumDoesNotFit)
    }

    #[tactic(auto, unfolding(book::specs::Calls::lower_refusal, book::specs::Calls::lowered))]
    fn lower(&mut self, provider: u8, quarter: u8, quantity: K) -> Result<(), BookRefusal>
        ensures answer { answer_number (result_err result) ≡ answer_number (lower_refusal K.measure (rows_held K.measure (M.slots self.old.rows)) (rows_places (M.slots self.old.rows)) provider quarter quantity) }
        ensures after { amounts K.measure (rows_held K.measure (M.slots self.new.rows)) ≡ lowered K.measure (rows_held K.measure (M.slots self.old.rows)) (rows_places (M.slots self.old.rows)) provider quarter quantity }
        ensures rest { ChangesHoldings (λ s. rows_places (M.slots s.rows)) (λ _. everything {Q = K}) (λ _. 0) self.old self.new }
        ensures beyond { drop 3200 (M.slots self.new.rows) ≡ drop 3200 (M.slots self.old.rows) }
        ensures lender { M.loan self.new.rows ≡ M.loan self.old.rows }
    {
        let at = Position::new(provider, quarter)?;
        let left = self.holding(provider, quarter).remainder(quantity);
        self.change(at, left, BookRefusal::NoRemainder)
    }
}
