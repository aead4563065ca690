ghost use Rattle.std.specs.Prelude.{◌≡◌, ◌+◌, ◌<◌, ◌≤◌, List, [], ◌∷◌, ◌++◌, length, take};
ghost use Rattle.std.specs.List.{insert, remove};

use std::marker::Model;

// A list in an array of fixed size: the first `count` slots hold its items. It asks for no memory, so no call fails for want of it.
// The kit's `arrayvec` would hold as much, but its statements would then be trusted.
#[derive(Drop)]
pub struct FixedList<T, const N: usize> {
    count: usize,
    slots: [T; N],
}

// Clauses see the items in their order.
impl<T, const N: usize> Model for FixedList<T, N> {
    ghost Value = { List T };

    ghost view = { λ l. take l.count l.slots };

    ghost invariant = { λ l. l.count ≤ N };
}

impl<T: Copy, const N: usize> FixedList<T, N> {
    // An empty list. Its array is filled with `blank`, which is never lent.
    pub fn new(blank: T) -> Self
        ensures no_item_yet { result ≡ [] }
    {
        FixedList {
            count: 0,
            slots: [blank; N],
        }
    }

    pub fn push(&mut self, item: T)
        requires room { length self.old < N }
        ensures the_item_stands_last { self.new ≡ self.old ++ item ∷ [] }
    {
        self.slots[self.count] = item;
        self.count += 1;
    }

    pub fn extend(&mut self, items: &[T])
        requires room { length self.old + length items.now ≤ N }
        ensures the_items_stand_last { self.new ≡ self.old ++ items.now }
    {
        let end = self.count + items.len();
        let slots = &mut self.slots[..];
        slots[self.count..end].copy_from_slice(items);
        self.count = end;
    }

    // Puts `item` at `place`, and moves those from there on up by one.
    pub fn insert(&mut self, place: usize, item: T)
        requires room { length self.old < N }
        requires within { place ≤ length self.old }
        ensures the_item_stands_at_its_place { self.new ≡ insert self.old place item }
    {
        let end = self.count + 1;
        let slots = &mut self.slots[..];
        slots[self.count] = item;
        slots[place..end].rotate_right(1);
        self.count = end;
    }

    // Takes out the item at `place`, and moves those after it down by one.
    pub fn remove(&mut self, place: usize)
        requires within { place < length self.old }
        ensures the_item_is_gone { self.new ≡ remove self.old place }
    {
        let slots = &mut self.slots[..];
        slots[place..self.count].rotate_left(1);
        self.count -= 1;
    }

    pub fn clear(&mut self)
        ensures no_item_is_left { self.new ≡ [] }
    {
        self.count = 0;
    }

    pub fn items(&self) -> &[T]
        ensures the_items_in_their_order { result.now ≡ self.now }
        ensures no_more_than_fit { length self.now ≤ N }
    {
        &self.slots[..self.count]
    }
}
