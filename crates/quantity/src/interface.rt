ghost use Rattle.std.specs.Prelude.{◌≡◌};
ghost use Rattle.quantity.specs.Measure.{Measure, is_zero};

/// A quantity stands for an element of a set with a sum and a zero (`measure`).
/// Only some elements fit; two values may stand for the same element.
pub trait Quantity: Copy {
    /// Plain numbers that tell a quantity, with no invariant: what lent memory holds.
    type Row: Copy;

    ghost measure: { Measure Self Self.Row };

    fn zero() -> Self
        ensures { result ≡ measure.nothing };

    /// The sum, or `None` if it does not fit.
    fn join(self, other: Self) -> Option<Self>
        ensures { result ≡ measure.joined self other };

    /// What is left of `self` after `part`, or `None` if no such quantity fits.
    fn remainder(self, part: Self) -> Option<Self>
        ensures { result ≡ measure.remaining self part };

    /// Whether both stand for the same element.
    // Not `PartialEq`: a generic `==` promises its own member, which each clause would have to tie to the measure.
    fn equals(self, other: Self) -> bool
        ensures { result ≡ measure.alike self other };

    /// Whether this stands for zero.
    fn is_zero(self) -> bool
        ensures { result ≡ is_zero measure self }
    {
        self.equals(Self::zero())
    }

    fn row(self) -> Self::Row
        ensures { result ≡ measure.row self };

    /// The quantity that a row tells; zero for a row that no quantity has.
    fn of_row(row: Self::Row) -> Self
        ensures { result ≡ measure.told row };
}
