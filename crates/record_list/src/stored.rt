ghost use Rattle.std.specs.Prelude.{◌≡◌, [], vec_capacity, IfOk};

use crate::interface::{Entries, Records};
use std::alloc::{AllocError, Global};

/// A list that owns its memory, for as many entries as were asked for when it was made.
#[derive(Drop)]
pub struct StoredList<E: Copy> {
    entries: Vec<E>,
}

impl<E: Copy> StoredList<E> {
    /// The empty list of this many places, or want of memory.
    pub fn new(heap: Global, room: usize) -> Result<StoredList<E>, AllocError>
        ensures contents { IfOk result (λ l. l.entries.items ≡ []) }
        ensures places { IfOk result (λ l. vec_capacity l.entries ≡ room) }
    {
        let entries = Vec::with_capacity(heap, room)?;
        Ok(StoredList { entries })
    }
}

// `replace` and `append` are a `Vec`'s here, and a slice's with a count in the list over lent slots: one body for both would need a third trait.
impl<E: Copy> Records for StoredList<E> {
    type Record = E;

    ghost contents = { λ l. l.entries.items };

    ghost places = { λ l. vec_capacity l.entries };

    fn count(&self) -> usize {
        self.entries.len()
    }

    fn room(&self) -> usize {
        self.entries.capacity()
    }

    fn at(&self, place: usize) -> Option<E> {
        self.entries.get(place).copied()
    }

    fn replace(&mut self, place: usize, item: E) -> bool {
        let Some(entry) = self.entries.get_mut(place) else {
            return false;
        };
        *entry = item;
        true
    }

    fn append(&mut self, item: E) -> Option<usize> {
        let place = self.entries.len();
        if place >= self.entries.capacity() {
            return None;
        }
        self.entries.push_reserved(item);
        Some(place)
    }
}

impl<E: Copy> Entries for StoredList<E> {
    fn entries(&self) -> &[E] {
        self.entries.as_slice()
    }
}

#[cfg(test)]
mod tests {
    use super::*;
    use std::test::Fail;

    #[test]
    fn grows_within_its_room(rt: HostRuntime) -> Result<(), Fail> {
        let mut list: StoredList<u8> = StoredList::new(rt.alloc(), 2)?;
        assert_eq!(rt; list.count(), 0);
        assert_eq!(rt; list.room(), 2);
        assert_eq!(rt; list.at(0), None);
        assert_eq!(rt; list.append(7), Some(0));
        assert_eq!(rt; list.append(8), Some(1));
        assert_eq!(rt; list.append(9), None);
        assert!(rt; list.replace(0, 5));
        assert!(rt; !list.replace(2, 5));
        assert_eq!(rt; list.at(0), Some(5));
        assert_eq!(rt; list.at(1), Some(8));
        assert_eq!(rt; list.count(), 2);
        Ok(())
    }
}
