ghost use Rattle.std.specs.Prelude.{◌≡◌, ℕ, List, length, nat_lt, slice_set};
ghost use Rattle.std.specs.List.{slice_get};
ghost use Rattle.record_list.specs.Lists.{next_place, pushed, ListBecomes};

/// A list of records that grows at its end, up to a number of places. A used place stays used.
pub trait Records {
    type Record: Copy;

    ghost contents: { Self → List Self.Record };

    ghost places: { Self → ℕ };

    /// How many places are used.
    fn count(&self) -> usize
        ensures { result ≡ length (contents self.now) };

    /// How many places there are.
    fn room(&self) -> usize
        ensures { result ≡ places self.now };

    /// The record at a place, none at a place that was never used.
    fn at(&self, place: usize) -> Option<Self::Record>
        ensures { result ≡ slice_get (contents self.now) place };

    // In place of a `&mut` to the record: of one lent out of lent memory no proof is generated.
    /// Replaces the record at a place, and says whether there is one.
    fn replace(&mut self, place: usize, item: Self::Record) -> bool
        ensures found { result ≡ nat_lt place (length (contents self.old)) }
        ensures list { ListBecomes contents places self.old self.new (slice_set (contents self.old) place item) };

    /// Puts a record at the next place and tells it, or changes nothing where every place is used.
    fn append(&mut self, item: Self::Record) -> Option<usize>
        ensures place { result ≡ next_place (contents self.old) (places self.old) }
        ensures list { ListBecomes contents places self.old self.new (pushed (contents self.old) (places self.old) item) };
}

// Apart from `Records`, so that a list whose records lie elsewhere is one as well.
/// A list whose records stand in one slice.
pub trait Entries: Records {
    /// The records at the places that are used.
    fn entries(&self) -> &[Self::Record]
        ensures { result.now ≡ Self.contents self.now };
}
