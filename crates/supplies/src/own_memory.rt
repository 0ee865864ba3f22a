ghost use Rattle.std.specs.Prelude.{◌≡◌, [], vec_capacity, IfOk};
ghost use Rattle.day_calls.specs.declared.desk.Stage.TheVariants.{Unopened};
ghost use Rattle.supplies.specs.New.{NewBookOf};

use crate::books::NewBook;
use awards::sheet::Sheet;
use book::interface::Book;
use bureau::supply::Supply;
use day_calls::desk::{Desk, Stage};
use quantity::interface::Quantity;
use record_list::stored::StoredList;
use requests::request::Request;
use std::alloc::{AllocError, Global};

/// A day over two books of one kind and a list that owns its memory.
pub type OwnDesk<B> = Desk<B, B, StoredList<Request<<<B as Book>::Q as Quantity>::Row>>>;

/// Days over books of one kind and a list with so many places for requests, in memory of their own.
#[derive(Clone, Copy, PartialEq, Eq, Debug)]
pub struct OwnMemory<M> {
    pub books: M,
    pub requests: usize,
}

impl<M> OwnMemory<M> {
    /// A day that is not opened yet, over two new books and a list without requests, or want of memory.
    pub fn desk<B: Book + Drop>(&self, heap: Global) -> Result<OwnDesk<B>, AllocError>
    where
        M: NewBook<B>,
        ensures stage { IfOk result (λ d. d.stage ≡ Unopened) }
        ensures obligations { IfOk result (λ d. NewBookOf B.Q.measure B.holdings B.places B.admission B.layer_number (M.size self.now.books) (M.admits self.now.books) (M.number self.now.books) d.obligations) }
        ensures bids { IfOk result (λ d. NewBookOf B.Q.measure B.holdings B.places B.admission B.layer_number (M.size self.now.books) (M.admits self.now.books) (M.number self.now.books) d.bids) }
        ensures requests { IfOk result (λ d. d.requests.entries.items ≡ []) }
        ensures room { IfOk result (λ d. vec_capacity d.requests.entries ≡ self.now.requests) }
    {
        Ok(Desk {
            stage: Stage::Unopened,
            obligations: self.books.book(heap)?,
            bids: self.books.book(heap)?,
            requests: StoredList::new(heap, self.requests)?,
            sheet: Sheet::blank(),
        })
    }
}

impl<B: Book + Drop, M: NewBook<B>> Supply<OwnDesk<B>> for OwnMemory<M> {
    fn supply(&self, heap: Global) -> Result<OwnDesk<B>, AllocError> {
        self.desk(heap)
    }
}
