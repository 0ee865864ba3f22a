ghost use Rattle.std.specs.Prelude.{◌≡◌};
ghost use Rattle.std.specs.Result.{result_err};
ghost use Rattle.book.specs.Grid.{amounts};
ghost use Rattle.book.specs.Rest.{ChangesHoldings};
ghost use Rattle.span_moves.specs.Spans.{next, misfit, asked};
ghost use Rattle.span_moves.specs.Ready.{changed_one};

use book::answers::Cause;
use book::interface::Book;
use book::range::Position;
use quantity::interface::Quantity;
use refusals::refusal::Refusal;

/// What is done to each holding of a span.
// An enum, and not two types under a trait: the definitions take the change as a value, so that each check is proved once for both.
#[derive(Clone, Copy, PartialEq, Eq, Debug)]
pub enum Change {
    Lowering,
    Raising,
}

impl Change {
    /// What a holding becomes.
    pub fn next<Q: Quantity>(self, held: Q, quantity: Q) -> Option<Q>
        ensures { result ≡ next Q.measure self held quantity }
    {
        match self {
            Change::Lowering => held.remainder(quantity),
            Change::Raising => held.join(quantity),
        }
    }

    /// The refusal where a holding can become nothing that fits.
    pub fn misfit(self, at: Position) -> Refusal
        ensures { result ≡ misfit self at.provider at.quarter }
    {
        let Position { provider, quarter } = at;
        match self {
            Change::Lowering => Refusal::NoRemainder { provider, quarter },
            Change::Raising => Refusal::SumDoesNotFit { provider, quarter },
        }
    }

    /// Whether the book admits what a holding becomes: only what is raised has to be admitted.
    pub fn admits<B: Book>(self, book: &B, at: Position, changed: B::Q) -> Result<(), Cause>
        ensures value { result_err result ≡ asked (B.admission book.now) self at.provider at.quarter changed }
        ensures alike { (other : B.Q) → B.Q.measure.amount other ≡ B.Q.measure.amount changed → asked (B.admission book.now) self at.provider at.quarter other ≡ asked (B.admission book.now) self at.provider at.quarter changed }
    {
        match self {
            Change::Lowering => Ok(()),
            Change::Raising => book.admits(at.provider, at.quarter, changed),
        }
    }

    /// Changes one holding, if the book does not refuse it.
    pub fn apply<B: Book>(self, book: &mut B, at: Position, quantity: B::Q)
        ensures after { amounts B.Q.measure (B.holdings book.new) ≡ changed_one B.Q.measure (B.holdings book.old) (B.places book.old) (B.admission book.old) self at.provider at.quarter quantity }
        ensures rest { ChangesHoldings B.places B.admission B.layer_number book.old book.new }
    {
        let _ = match self {
            Change::Lowering => book.lower(at.provider, at.quarter, quantity),
            Change::Raising => book.raise(at.provider, at.quarter, quantity),
        };
    }
}
