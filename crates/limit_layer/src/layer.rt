ghost use Rattle.std.specs.Prelude.{◌≡◌};

use crate::table::LimitTable;
use book::interface::Book;

/// A book that admits what the book below does and what is within each provider's limits.
#[derive(Drop)]
pub struct LimitLayer<B: Book> {
    pub(crate) below: B,
    pub(crate) limits: LimitTable,
}

impl<B: Book> LimitLayer<B> {
    /// The layer with these limits over a book.
    pub fn new(below: B, limits: LimitTable) -> LimitLayer<B>
        ensures below { result.below ≡ below }
        ensures limits { result.limits ≡ limits }
    {
        LimitLayer { below, limits }
    }

    /// The book below, handed back.
    pub fn into_below(self) -> B
        ensures { result ≡ self.below }
    {
        let LimitLayer { below, limits: _ } = self;
        below
    }
}
