//! Memory of a fixed number of slots, lent or owned.
ghost use Rattle.std.specs.Prelude.{◌≡◌, ℕ, List, Some, None, Option, map, slice_set};

/// Slots that are read and written where they stand: their number never changes.
pub trait Slots {
    type Slot: Copy;

    /// What the slots hold, from the first on.
    ghost slots: { Self → List Self.Slot };

    /// The name of the loan that the slots are, if they are lent.
    // That it stays is one equation in each contract, which no name would make shorter.
    ghost loan: { Self → Option ℕ };

    fn slots(&self) -> &[Self::Slot]
        ensures { result.now ≡ slots self.now };

    /// Writes the slot at a place, if there is one.
    fn write(&mut self, place: usize, slot: Self::Slot)
        ensures slots { slots self.new ≡ slice_set (slots self.old) place slot }
        ensures loan { loan self.new ≡ loan self.old };
}

impl<'a, E: Copy> Slots for &'a mut [E] {
    type Slot = E;

    ghost slots = { λ s. s.now };

    ghost loan = { λ s. Some s.ghost_name };

    fn slots(&self) -> &[E] {
        &self[..]
    }

    fn write(&mut self, place: usize, slot: E) {
        // By an index: through `get_mut` of a lent slice the proof did not close.
        if place < self.len() {
            self[place] = slot;
        }
    }
}

impl<E: Copy> Slots for Vec<E> {
    type Slot = E;

    ghost slots = { λ s. s.items };

    ghost loan = { λ _. None };

    fn slots(&self) -> &[E] {
        self.as_slice()
    }

    fn write(&mut self, place: usize, slot: E) {
        if let Some(item) = self.get_mut(place) {
            *item = slot;
        }
    }
}

/// Writes `e` into every slot.
pub fn fill<E: Copy>(slots: &mut [E], e: E)
    ensures { slots.new ≡ map (λ _. e) slots.old }
{
    // A loop, since the slice's own `fill` asks for a clone that cannot fail, which `Copy` does not promise.
    for slot in slots.iter_mut() {
        *slot = e;
    }
}
