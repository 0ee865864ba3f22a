use crate::interface::{Entries, Records};
use crate::slots::{Slots, fill};

/// A list in lent memory: its contents are the first `used` slots, or all where there are fewer.
// The slice with `used` beside it stays: the memory is lent by callers who have no heap, and is handed back to them.
#[derive(Drop)]
pub struct RecordList<'a, E: Copy> {
    pub slots: &'a mut [E],
    pub used: usize,
}

impl<'a, E: Copy> RecordList<'a, E> {
    ghost use Rattle.std.specs.Prelude.{◌≡◌, [], map, take};
    ghost use Rattle.record_list.specs.Lists.{contents};

    // Each of these promises its slots and its loan: two equations, which no name would make shorter.
    /// The empty list over these slots.
    pub fn empty(slots: &'a mut [E]) -> RecordList<'a, E>
        ensures contents { contents result ≡ [] }
        ensures slots { result.slots.now ≡ slots.old }
        ensures lender { result.slots.ghost_name ≡ slots.entry.ghost_name }
    {
        RecordList { slots, used: 0 }
    }

    /// The list of the first `used` slots as they are, or of all where there are fewer.
    pub fn resume(slots: &'a mut [E], used: usize) -> RecordList<'a, E>
        ensures contents { contents result ≡ take used slots.old }
        ensures slots { result.slots.now ≡ slots.old }
        ensures lender { result.slots.ghost_name ≡ slots.entry.ghost_name }
    {
        RecordList { slots, used }
    }

    /// The list in which every slot holds `e`.
    pub fn filled(slots: &'a mut [E], e: E) -> RecordList<'a, E>
        ensures contents { contents result ≡ map (λ _. e) slots.old }
        ensures slots { result.slots.now ≡ contents result }
        ensures lender { result.slots.ghost_name ≡ slots.entry.ghost_name }
    {
        fill(slots, e);
        let all = slots.len();
        RecordList { slots, used: all }
    }

    /// The slots, handed back.
    pub fn into_slots(self) -> &'a mut [E]
        ensures slots { result.now ≡ self.entry.slots.now }
        ensures lender { result.ghost_name ≡ self.entry.slots.ghost_name }
    {
        let RecordList { slots, used: _ } = self;
        slots
    }
}

impl<'a, E: Copy> Records for RecordList<'a, E> {
    ghost use Rattle.std.specs.Prelude.{◌≡◌, length, nat_lt, slice_set};
    ghost use Rattle.record_list.specs.Lists.{contents, places, next_place, pushed, ListBecomes};

    type Record = E;

    ghost contents = { contents };

    ghost places = { places };

    fn count(&self) -> usize {
        self.used.min(self.slots.len())
    }

    fn room(&self) -> usize {
        self.slots.len()
    }

    fn at(&self, place: usize) -> Option<E> {
        let used = self.count();
        self.slots[..used].get(place).copied()
    }

    // The interface's promises once more, beside which alone the language takes a further one: that the loan stays.
    fn replace(&mut self, place: usize, item: E) -> bool
        ensures found { result ≡ nat_lt place (length (contents self.old)) }
        ensures list { ListBecomes contents places self.old self.new (slice_set (contents self.old) place item) }
        ensures lender { self.new.slots.ghost_name ≡ self.old.slots.ghost_name }
    {
        let found = place < self.count();
        if found {
            self.slots[place] = item;
        }
        found
    }

    fn append(&mut self, item: E) -> Option<usize>
        ensures place { result ≡ next_place (contents self.old) (places self.old) }
        ensures list { ListBecomes contents places self.old self.new (pushed (contents self.old) (places self.old) item) }
        ensures lender { self.new.slots.ghost_name ≡ self.old.slots.ghost_name }
    {
        let place = self.used;
        if place >= self.slots.len() {
            return None;
        }
        self.slots[place] = item;
        self.used = place + 1;
        Some(place)
    }
}

impl<'a, E: Copy> Entries for RecordList<'a, E> {
    fn entries(&self) -> &[E] {
        let used = self.count();
        &self.slots[..used]
    }
}

impl<'a, E: Copy> Slots for RecordList<'a, E> {
    ghost use Rattle.std.specs.Prelude.{Some};

    type Slot = E;

    ghost slots = { λ l. l.slots.now };

    ghost loan = { λ l. Some l.slots.ghost_name };

    /// Every slot, used or not.
    fn slots(&self) -> &[E] {
        self.slots.slots()
    }

    fn write(&mut self, place: usize, slot: E) {
        self.slots.write(place, slot);
    }
}
