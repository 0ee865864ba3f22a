ghost use Rattle.std.specs.Prelude.{ℕ, IfOk};
ghost use Rattle.book.specs.Admissions.{Admission};
ghost use Rattle.book.specs.Calls.{everything};
ghost use Rattle.limit_layer.specs.Limits.{limited, next_layer};
ghost use Rattle.supplies.specs.New.{NewBookOf};

use book::interface::Book;
use full_book::stored::StoredFullBook;
use limit_layer::layer::LimitLayer;
use limit_layer::table::LimitTable;
use quantity::interface::Quantity;
use quantity::reserve::ReserveQuantity;
use sparse_book::stored::StoredSparseBook;
use std::alloc::{AllocError, Global};

/// What makes books in memory of their own: how many places they have, what they admit, and which layer they are.
pub trait NewBook<B: Book> {
    ghost size: { Self → ℕ };

    ghost admits: { Self → ℕ → ℕ → B.Q → Admission };

    ghost number: { Self → ℕ };

    /// A book that holds nothing, or want of memory.
    fn book(&self, heap: Global) -> Result<B, AllocError>
        ensures { IfOk result (NewBookOf B.Q.measure B.holdings B.places B.admission B.layer_number (size self.now) (admits self.now) (number self.now)) };
}

/// Full books.
#[derive(Clone, Copy, PartialEq, Eq, Debug)]
pub struct FullBooks;

impl<K: Quantity> NewBook<StoredFullBook<K>> for FullBooks {
    ghost size = { λ _. 3200 };

    ghost admits = { λ _. everything };

    ghost number = { λ _. 0 };

    fn book(&self, heap: Global) -> Result<StoredFullBook<K>, AllocError> {
        StoredFullBook::new(heap)
    }
}

/// Sparse books, each with so many places.
#[derive(Clone, Copy, PartialEq, Eq, Debug)]
pub struct SparseBooks {
    pub places: usize,
}

impl<K: Quantity> NewBook<StoredSparseBook<K>> for SparseBooks {
    ghost size = { λ books. books.places };

    ghost admits = { λ _. everything };

    ghost number = { λ _. 0 };

    fn book(&self, heap: Global) -> Result<StoredSparseBook<K>, AllocError> {
        StoredSparseBook::new(heap, self.places)
    }
}

/// Books under these limits.
#[derive(Clone, Copy, PartialEq, Eq, Debug)]
pub struct UnderLimits<M> {
    pub below: M,
    pub limits: LimitTable,
}

impl<B: Book, M: NewBook<B>> NewBook<LimitLayer<B>> for UnderLimits<M>
where
    B::Q: ReserveQuantity,
{
    ghost size = { λ books. M.size books.below };

    ghost admits = { λ books. limited books.limits (next_layer (M.number books.below)) (M.admits books.below) B.Q.tenths_in };

    ghost number = { λ books. next_layer (M.number books.below) };

    fn book(&self, heap: Global) -> Result<LimitLayer<B>, AllocError> {
        Ok(LimitLayer::new(self.below.book(heap)?, self.limits))
    }
}
