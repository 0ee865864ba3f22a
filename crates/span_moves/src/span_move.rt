ghost use Rattle.std.specs.Prelude.{◌≡◌, ◌+◌, ◌≢◌, [], ◌∷◌, IfOk, OnOk};
ghost use Rattle.std.specs.Result.{result_err};
ghost use Rattle.book.specs.Grid.{amounts};
ghost use Rattle.book.specs.Rest.{ChangesHoldings};
ghost use Rattle.refusals.specs.First.{first_some};
ghost use Rattle.refusals.specs.Checks.{no_provider, no_span, one_provider};
ghost use Rattle.span_moves.specs.Spans.{Alike};
ghost use Rattle.span_moves.specs.Moves.{moved, move_checks};
ghost use Rattle.span_moves.specs.Ready.{ReadyToMove};

use crate::change::Change;
use crate::span_change::SpanChange;
use book::interface::Book;
use quantity::interface::Quantity;
use refusals::passage::Passage;
use refusals::refusal::Refusal;
use refusals::span::{Provider, Span};

/// One quantity that passes from the giver to the taker in every quarter of a span.
#[derive(Drop)]
pub struct SpanMove<Q> {
    pub giver: Provider,
    pub taker: Provider,
    pub span: Span,
    pub quantity: Q,
    ghost apart: { giver.number ≢ taker.number },
}

impl<Q: Quantity> SpanMove<Q> {
    pub fn new(passage: Passage, quantity: Q) -> Result<SpanMove<Q>, Refusal>
        ensures refusal { result_err result ≡ first_some (no_provider passage.giver ∷ (no_provider passage.taker ∷ (no_span passage.first passage.last ∷ (one_provider passage.giver passage.taker ∷ [])))) }
        ensures parts { IfOk result (λ x. (x.giver.number ≡ passage.giver) × (x.taker.number ≡ passage.taker) × (x.span.first ≡ passage.first) × (x.span.last ≡ passage.last) × (x.quantity ≡ quantity)) }
    {
        let giver = Provider::try_from(passage.giver)?;
        let taker = Provider::try_from(passage.taker)?;
        let span = Span::new(passage.first, passage.last)?;
        if giver == taker {
            return Err(Refusal::SameProvider);
        }
        Ok(SpanMove {
            giver,
            taker,
            span,
            quantity,
        })
    }

    // The change that this move is for the giver or the taker. Field by field: the two are of different types.
    fn change(&self, change: Change, provider: Provider) -> SpanChange<Q>
        ensures { result ≡ record { change = change; provider = provider; span = self.now.span; quantity = self.now.quantity } }
    {
        SpanChange {
            change,
            provider,
            span: self.span,
            quantity: self.quantity,
        }
    }

    /// Refuses a move of which the book cannot take every quarter. All lowerings come before all raisings.
    pub fn check<B: Book<Q = Q>>(&self, book: &B) -> Result<(), Refusal>
        ensures alike { Alike Q.measure (B.holdings book.now) self.now.quantity (λ other q. move_checks Q.measure other (B.places book.now) (B.admission book.now) self.now.giver.number self.now.taker.number self.now.span.first self.now.span.last q) (result_err result) }
        ensures ready { OnOk result (ReadyToMove Q.measure (B.holdings book.now) (B.places book.now) (B.admission book.now) self.now.giver.number self.now.taker.number self.now.span.first self.now.span.last self.now.quantity) }
    {
        let lowering = self.change(Change::Lowering, self.giver);
        let raising = self.change(Change::Raising, self.taker);
        lowering.check_fits(book)?;
        raising.check_fits(book)?;
        raising.check_admitted(book)?;
        let free = book.free() as u128;
        let lowered = lowering
            .count_places(book, free)
            .ok_or(Refusal::NoFreePlace)?;
        raising
            .count_places(book, lowered)
            .ok_or(Refusal::NoFreePlace)?;
        Ok(())
    }

    /// Lowers every holding of the giver, then raises every holding of the taker.
    pub(crate) fn apply<B: Book<Q = Q>>(self, book: &mut B)
        requires { ReadyToMove Q.measure (B.holdings book.old) (B.places book.old) (B.admission book.old) self.giver.number self.taker.number self.span.first self.span.last self.quantity }
        ensures after { amounts Q.measure (B.holdings book.new) ≡ moved Q.measure (B.holdings book.old) self.giver.number self.taker.number self.quantity self.span.first (self.span.last + 1) }
        ensures rest { ChangesHoldings B.places B.admission B.layer_number book.old book.new }
    {
        self.change(Change::Lowering, self.giver).apply(book);
        self.change(Change::Raising, self.taker).apply(book);
    }
}
