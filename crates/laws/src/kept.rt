ghost use Rattle.laws.specs.Laws.{Kept};

use quantity::reserve::ReserveQuantity;

/// The theorem that a call which is performed as defined keeps the law, for every reserve quantity.
// A function, so that the check lists the theorem.
pub fn law_is_kept<Q: ReserveQuantity>(q: Q) -> Q
    ensures { Kept Q.measure Q.tenths_in Q.directions }
{
    q
}
