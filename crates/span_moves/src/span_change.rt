ghost use Rattle.std.specs.Prelude.{◌≡◌, ◌+◌, ◌-◌, ◌^◌, ◌<◌, ◌≤◌, [], ◌∷◌, Some, IfOk, OnOk};
ghost use Rattle.std.specs.Result.{result_err};
ghost use Rattle.book.specs.Grid.{amounts, taken};
ghost use Rattle.book.specs.Rest.{ChangesHoldings};
ghost use Rattle.refusals.specs.First.{first_some};
ghost use Rattle.refusals.specs.Checks.{no_provider, no_span};
ghost use Rattle.span_moves.specs.Spans.{Alike, first_of, unfit, spanned, step_left, left_after, count};
ghost use Rattle.span_moves.specs.Moves.{unwelcome, change_checks};
ghost use Rattle.span_moves.specs.Ready.{Ready};

use crate::change::Change;
use book::interface::Book;
use book::range::Position;
use quantity::interface::Quantity;
use refusals::passage::ProviderSpan;
use refusals::refusal::Refusal;
use refusals::span::{Provider, Span};

/// One change of a provider's holdings, by one quantity in every quarter of a span.
#[derive(Clone, Copy, PartialEq, Eq, Debug)]
pub struct SpanChange<Q> {
    pub change: Change,
    pub provider: Provider,
    pub span: Span,
    pub quantity: Q,
}

impl<Q: Quantity> SpanChange<Q> {
    pub fn new(change: Change, asked: ProviderSpan, quantity: Q) -> Result<SpanChange<Q>, Refusal>
        ensures refusal { result_err result ≡ first_some (no_provider asked.provider ∷ (no_span asked.first asked.last ∷ [])) }
        ensures parts { IfOk result (λ x. (x.change ≡ change) × (x.provider.number ≡ asked.provider) × (x.span.first ≡ asked.first) × (x.span.last ≡ asked.last) × (x.quantity ≡ quantity)) }
    {
        Ok(SpanChange {
            change,
            provider: Provider::try_from(asked.provider)?,
            span: Span::new(asked.first, asked.last)?,
            quantity,
        })
    }

    // Where the provider's holding of a quarter stands.
    fn at(self, quarter: u8) -> Position
        requires { quarter < 100 }
        ensures provider { result.provider ≡ self.provider.number }
        ensures quarter { result.quarter ≡ quarter }
    {
        Position {
            provider: self.provider.number,
            quarter,
        }
    }

    /// Refuses the first quarter in which the changed holding does not fit.
    pub fn check_fits<B: Book<Q = Q>>(self, book: &B) -> Result<(), Refusal>
        ensures { result_err result ≡ first_of (unfit Q.measure (B.holdings book.now) self.change self.provider.number self.quantity) self.span.first (count self.span.first self.span.last) }
    {
        for quarter in self.span.first..=self.span.last {
            let at = self.at(quarter);
            let changed = self.change.next(held(book, at), self.quantity);
            changed.ok_or(self.change.misfit(at))?;
        }
        Ok(())
    }

    // Refuses a change of one holding to what is not admitted.
    fn check_one<B: Book<Q = Q>>(self, book: &B, at: Position) -> Result<(), Refusal>
        ensures { Alike Q.measure (B.holdings book.now) self.quantity (λ other q. unwelcome Q.measure other (B.places book.now) (B.admission book.now) self.change at.provider q at.quarter) (result_err result) }
    {
        let Position { provider, quarter } = at;
        let Some(changed) = self.change.next(held(book, at), self.quantity) else {
            return Ok(());
        };
        self.change
            .admits(book, at, changed)
            .map_err(|cause| Refusal::NotAdmitted {
                provider,
                quarter,
                cause,
            })
    }

    /// Refuses the first quarter in which the changed holding is not admitted.
    /// All holdings and quantities of the same amounts are answered alike.
    pub fn check_admitted<B: Book<Q = Q>>(self, book: &B) -> Result<(), Refusal>
        ensures { Alike Q.measure (B.holdings book.now) self.quantity (λ other q. first_of (unwelcome Q.measure other (B.places book.now) (B.admission book.now) self.change self.provider.number q) self.span.first (count self.span.first self.span.last)) (result_err result) }
    {
        // Only what is raised has to be admitted: for a lowering no holding is looked at.
        if let Change::Lowering = self.change {
            return Ok(());
        }
        for quarter in self.span.first..=self.span.last {
            self.check_one(book, self.at(quarter))?;
        }
        Ok(())
    }

    /// How many places are free after the change of each quarter, by rising quarter; none where a place is wanting.
    /// A count of 128 bits cannot overflow, however many places a book has.
    #[tactic(auto, using(crate::proofs::Lefts::left_start, crate::proofs::Lefts::left_next, crate::proofs::Lefts::left_le))]
    pub(crate) fn count_places<B: Book<Q = Q>>(self, book: &B, free: u128) -> Option<u128>
        requires { free < 2 ^ 65 }
        ensures { result ≡ left_after Q.measure (B.holdings book.now) self.change self.provider.number self.quantity (Some free) self.span.first (count self.span.first self.span.last) }
    {
        let mut left = free;
        for quarter in self.span.first..=self.span.last {
            let held = held(book, self.at(quarter));
            let changed = self.change.next(held, self.quantity).unwrap_or(held);
            left = after_step(left, held.is_zero(), changed.is_zero())?;
        }
        Some(left)
    }

    /// Refuses a change of which the book cannot take every quarter.
    pub fn check<B: Book<Q = Q>>(self, book: &B) -> Result<(), Refusal>
        ensures alike { Alike Q.measure (B.holdings book.now) self.quantity (λ other q. change_checks Q.measure other (B.places book.now) (B.admission book.now) self.change self.provider.number self.span.first self.span.last q) (result_err result) }
        ensures ready { OnOk result (Ready Q.measure (B.holdings book.now) (B.places book.now) (B.admission book.now) self.change self.provider.number self.span.first self.span.last self.quantity) }
    {
        self.check_fits(book)?;
        self.check_admitted(book)?;
        let free = book.free() as u128;
        self.count_places(book, free).ok_or(Refusal::NoFreePlace)?;
        Ok(())
    }

    /// Changes every holding of the span.
    pub(crate) fn apply<B: Book<Q = Q>>(self, book: &mut B)
        requires { Ready Q.measure (B.holdings book.old) (B.places book.old) (B.admission book.old) self.change self.provider.number self.span.first self.span.last self.quantity }
        ensures after { amounts Q.measure (B.holdings book.new) ≡ spanned Q.measure (B.holdings book.old) self.change self.provider.number self.quantity self.span.first (self.span.last + 1) }
        ensures left { left_after Q.measure (B.holdings book.old) self.change self.provider.number self.quantity (Some (B.places book.old - taken Q.measure (B.holdings book.old))) self.span.first (count self.span.first self.span.last) ≡ Some (B.places book.old - taken Q.measure (B.holdings book.new)) }
        ensures bound { taken Q.measure (B.holdings book.new) ≤ B.places book.old }
        ensures rest { ChangesHoldings B.places B.admission B.layer_number book.old book.new }
    {
        for quarter in self.span.first..=self.span.last {
            self.change.apply(book, self.at(quarter), self.quantity);
        }
    }
}

// What is held at a position.
fn held<B: Book>(book: &B, at: Position) -> B::Q
    ensures { result ≡ B.holdings book.now at.provider at.quarter }
{
    book.holding(at.provider, at.quarter)
}

// How many places are free after one holding was changed; none where a place is wanting.
fn after_step(free: u128, was_zero: bool, will_be_zero: bool) -> Option<u128>
    requires { free < 2 ^ 127 }
    ensures { result ≡ step_left was_zero will_be_zero free }
{
    match (was_zero, will_be_zero) {
        (true, false) => free.checked_sub(1),
        (false, true) => Some(free + 1),
        _ => Some(free),
    }
}
