ghost use Rattle.std.specs.Prelude.{◌≡◌};
ghost use Rattle.book.specs.Grid.{amounts};
ghost use Rattle.book.specs.Rest.{ChangesHoldings};
ghost use Rattle.script.specs.Performed.{said, answered, after};

use crate::calls::{Answer, Call, NotDone};
use book::interface::Book;
use span_moves::spans::move_span;

/// Makes one call of a book.
pub fn perform<B: Book>(book: &mut B, call: Call<B::Q>) -> Result<Answer<B::Q>, NotDone>
    ensures answer { said result ≡ answered B.Q.measure (B.holdings book.old) (B.places book.old) (B.admission book.old) call }
    ensures after { amounts B.Q.measure (B.holdings book.new) ≡ after B.Q.measure (B.holdings book.old) (B.places book.old) (B.admission book.old) call }
    ensures rest { ChangesHoldings B.places B.admission B.layer_number book.old book.new }
{
    match call {
        Call::Raise(change) => {
            book.raise(change.provider, change.quarter, change.quantity)?;
            Ok(Answer::Raised)
        }
        Call::Lower(change) => {
            book.lower(change.provider, change.quarter, change.quantity)?;
            Ok(Answer::Lowered)
        }
        Call::Move { passage, quantity } => {
            move_span(book, passage, quantity)?;
            Ok(Answer::Moved)
        }
        Call::Holding { provider, quarter } => Ok(Answer::Held(book.holding(provider, quarter))),
        Call::Free => Ok(Answer::FreePlaces(book.free())),
    }
}
