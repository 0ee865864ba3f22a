ghost use Rattle.std.specs.Prelude.{◌≡◌, ℕ, ◌+◌};
ghost use Rattle.std.specs.Result.{result_err};
ghost use Rattle.book.specs.Admissions.{Admission};
ghost use Rattle.book.specs.Numbers.{admission_number, answer_number};
ghost use Rattle.book.specs.Grid.{amounts, taken};
ghost use Rattle.book.specs.Rest.{ChangesHoldings};
ghost use Rattle.book.specs.Calls.{held_at, admitted_at, raise_refusal, lower_refusal, raised, lowered};

use crate::answers::{BookRefusal, Cause};
use quantity::interface::Quantity;

/// A book is told by its holdings (of each provider and quarter), the number of its places and what it admits,
/// and has a layer number. Holdings are compared by the amounts that they stand for.
// Provider and quarter stay two numbers of any value: callers have them so, and a pair would be made for each call to be taken apart at once.
// `Position` is the pair once it is checked.
// Three ghost members beside the layer number, and not one record of them: by rule these three are what a book is, and a definition that
// follows calls changes the holdings alone.
pub trait Book {
    type Q: Quantity;

    ghost holdings: { Self → ℕ → ℕ → Self.Q };

    ghost places: { Self → ℕ };

    ghost admission: { Self → ℕ → ℕ → Self.Q → Admission };

    ghost layer_number: { Self → ℕ };

    /// The holding, zero outside the range.
    fn holding(&self, provider: u8, quarter: u8) -> Self::Q
        ensures { result ≡ held_at Self.Q.measure (holdings self.now) provider quarter };

    /// How many places are free: with the non-zero holdings they are all places.
    fn free(&self) -> usize
        ensures { result + taken Self.Q.measure (holdings self.now) ≡ places self.now };

    /// Whether the quantity is admitted as this holding, yes outside the range, or the cause why not.
    /// Values that stand for the same amount are answered alike.
    fn admits(&self, provider: u8, quarter: u8, quantity: Self::Q) -> Result<(), Cause>
        ensures value { admission_number (result_err result) ≡ admission_number (admitted_at (admission self.now) provider quarter quantity) }
        ensures alike { (other : Self.Q) → Self.Q.measure.amount other ≡ Self.Q.measure.amount quantity → admission self.now provider quarter other ≡ admission self.now provider quarter quantity };

    fn layer(&self) -> u8
        ensures { result ≡ layer_number self.now };

    /// Replaces one holding by its sum with the quantity, or changes nothing and says why.
    fn raise(&mut self, provider: u8, quarter: u8, quantity: Self::Q) -> Result<(), BookRefusal>
        ensures answer { answer_number (result_err result) ≡ answer_number (raise_refusal Self.Q.measure (holdings self.old) (places self.old) (admission self.old) provider quarter quantity) }
        ensures after { amounts Self.Q.measure (holdings self.new) ≡ raised Self.Q.measure (holdings self.old) (places self.old) (admission self.old) provider quarter quantity }
        ensures rest { ChangesHoldings places admission layer_number self.old self.new };

    /// Replaces one holding by its remainder after the quantity, or changes nothing and says why.
    fn lower(&mut self, provider: u8, quarter: u8, quantity: Self::Q) -> Result<(), BookRefusal>
        ensures answer { answer_number (result_err result) ≡ answer_number (lower_refusal Self.Q.measure (holdings self.old) (places self.old) provider quarter quantity) }
        ensures after { amounts Self.Q.measure (holdings self.new) ≡ lowered Self.Q.measure (holdings self.old) (places self.old) provider quarter quantity }
        ensures rest { ChangesHoldings places admission layer_number self.old self.new };
}
