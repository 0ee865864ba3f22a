ghost use Rattle.std.specs.Prelude.{◌≡◌, OnOk};
ghost use Rattle.std.specs.Result.{result_err};
ghost use Rattle.book.specs.Grid.{amounts};
ghost use Rattle.book.specs.Rest.{ChangesHoldings};
ghost use Rattle.refusals.specs.Numbers.{answer_number};
ghost use Rattle.span_moves.specs.Spans.{Alike};
ghost use Rattle.span_moves.specs.Moves.{span_refusal, span_after, move_refusal, move_after, Passed};
ghost use Rattle.span_moves.specs.declared.change.Change.TheVariants.{Raising, Lowering};

use crate::change::Change;
use crate::span_change::SpanChange;
use crate::span_move::SpanMove;
use book::interface::Book;
use refusals::passage::{Passage, ProviderSpan};
use refusals::refusal::Refusal;

// Changes every holding of a span, or changes nothing and says why.
#[tactic(auto, unfolding(crate::specs::Moves::span_refusal, crate::specs::Moves::span_after))]
fn change_span<B: Book>(
    book: &mut B,
    change: Change,
    span: ProviderSpan,
    quantity: B::Q,
) -> Result<(), Refusal>
    ensures answer { answer_number (result_err result) ≡ answer_number (span_refusal B.Q.measure (B.holdings book.old) (B.places book.old) (B.admission book.old) change span.provider span.first span.last quantity) }
    ensures alike { Alike B.Q.measure (B.holdings book.old) quantity (λ other q. span_refusal B.Q.measure other (B.places book.old) (B.admission book.old) change span.provider span.first span.last q) (result_err result) }
    ensures after { amounts B.Q.measure (B.holdings book.new) ≡ span_after B.Q.measure (B.holdings book.old) (B.places book.old) (B.admission book.old) change span.provider span.first span.last quantity }
    ensures rest { ChangesHoldings B.places B.admission B.layer_number book.old book.new }
{
    let planned = SpanChange::new(change, span, quantity)?;
    planned.check(book)?;
    planned.apply(book);
    Ok(())
}

// Two calls, since the rules name two; the code stands once above.

/// Raises every holding of a span by the quantity, or changes nothing and says why.
pub fn raise_span<B: Book>(book: &mut B, span: ProviderSpan, quantity: B::Q) -> Result<(), Refusal>
    ensures answer { answer_number (result_err result) ≡ answer_number (span_refusal B.Q.measure (B.holdings book.old) (B.places book.old) (B.admission book.old) Raising span.provider span.first span.last quantity) }
    ensures alike { Alike B.Q.measure (B.holdings book.old) quantity (λ other q. span_refusal B.Q.measure other (B.places book.old) (B.admission book.old) Raising span.provider span.first span.last q) (result_err result) }
    ensures after { amounts B.Q.measure (B.holdings book.new) ≡ span_after B.Q.measure (B.holdings book.old) (B.places book.old) (B.admission book.old) Raising span.provider span.first span.last quantity }
    ensures rest { ChangesHoldings B.places B.admission B.layer_number book.old book.new }
{
    change_span(book, Change::Raising, span, quantity)
}

/// Lowers every holding of a span by the quantity, or changes nothing and says why.
pub fn lower_span<B: Book>(book: &mut B, span: ProviderSpan, quantity: B::Q) -> Result<(), Refusal>
    ensures answer { answer_number (result_err result) ≡ answer_number (span_refusal B.Q.measure (B.holdings book.old) (B.places book.old) (B.admission book.old) Lowering span.provider span.first span.last quantity) }
    ensures alike { Alike B.Q.measure (B.holdings book.old) quantity (λ other q. span_refusal B.Q.measure other (B.places book.old) (B.admission book.old) Lowering span.provider span.first span.last q) (result_err result) }
    ensures after { amounts B.Q.measure (B.holdings book.new) ≡ span_after B.Q.measure (B.holdings book.old) (B.places book.old) (B.admission book.old) Lowering span.provider span.first span.last quantity }
    ensures rest { ChangesHoldings B.places B.admission B.layer_number book.old book.new }
{
    change_span(book, Change::Lowering, span, quantity)
}

/// Moves the quantity from the giver to the taker in every quarter of a span, or changes nothing and says why.
/// All lowerings come before all raisings.
#[tactic(auto, unfolding(crate::specs::Moves::move_refusal, crate::specs::Moves::move_after))]
pub fn move_span<B: Book>(book: &mut B, passage: Passage, quantity: B::Q) -> Result<(), Refusal>
    ensures answer { answer_number (result_err result) ≡ answer_number (move_refusal B.Q.measure (B.holdings book.old) (B.places book.old) (B.admission book.old) passage.giver passage.taker passage.first passage.last quantity) }
    ensures alike { Alike B.Q.measure (B.holdings book.old) quantity (λ other q. move_refusal B.Q.measure other (B.places book.old) (B.admission book.old) passage.giver passage.taker passage.first passage.last q) (result_err result) }
    ensures after { amounts B.Q.measure (B.holdings book.new) ≡ move_after B.Q.measure (B.holdings book.old) (B.places book.old) (B.admission book.old) passage.giver passage.taker passage.first passage.last quantity }
    ensures passed { OnOk result (Passed B.Q.measure (amounts B.Q.measure (B.holdings book.old)) (amounts B.Q.measure (B.holdings book.new)) passage.giver passage.taker passage.first passage.last (B.Q.measure.amount quantity)) }
    ensures rest { ChangesHoldings B.places B.admission B.layer_number book.old book.new }
{
    let planned = SpanMove::new(passage, quantity)?;
    planned.check(book)?;
    planned.apply(book);
    Ok(())
}
