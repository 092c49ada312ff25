ghost use Rattle.std.specs.Prelude.{◌≡◌, ℕ, ◌+◌, ◌-◌, ◌<◌, min, true, [], ◌∷◌, ◌++◌, length, take, drop, is_ok, is_err, if◌then◌else◌, Ok, Err, nat_lt, slice_index_or, slice_set, Bool, filter};
ghost use Rattle.std.specs.Fn.{FnReturnsAt};
ghost use Rattle.std.specs.List.{remove};
ghost use Rattle.slots.specs.Items.{capacity, items, free};

use crate::list::List;
use std::mem;

impl<'a, T: Copy> List<'a, T> {
    // An empty list that uses at most `limit` of the slots.
    pub fn new(slots: &'a mut [T], limit: usize) -> List<'a, T>
        ensures items { items result ≡ [] }
        ensures free { free result ≡ slots.old }
        ensures capacity { capacity result ≡ min limit (length slots.old) }
    {
        List {
            slots,
            limit,
            len: 0,
        }
    }

    // How many records the list can hold.
    fn capacity(&self) -> usize
        ensures { result ≡ capacity self.now }
    {
        self.limit.min(self.slots.len())
    }

    // How many records there are.
    pub fn len(&self) -> usize
        ensures { result ≡ length (items self.now) }
    {
        self.len.min(self.capacity())
    }

    // How many more records can be appended.
    pub fn room(&self) -> usize
        ensures { result ≡ capacity self.now - length (items self.now) }
    {
        self.capacity() - self.len()
    }

    // The records, in order.
    pub fn as_slice(&self) -> &[T]
        ensures { result.now ≡ items self.now }
    {
        &self.slots[..self.len()]
    }

    // A place lies inside one list as it stands: an index that carried this would have to name the list, so each method asks it.
    pub fn get(&self, i: usize) -> T
        requires { i < length (items self.now) }
        ensures { result ≡ slice_index_or (items self.now) i result }
    {
        let records: &[T] = self.slots;
        records[i]
    }

    // Puts `x` in the place of record `i`, which comes back.
    // That the capacity stays, here and below, is said of a list before and after, which no type says of one value; so with `free`.
    pub fn replace(&mut self, i: usize, x: T) -> T
        requires { i < length (items self.old) }
        ensures value { result ≡ slice_index_or (items self.old) i result }
        ensures items { items self.new ≡ slice_set (items self.old) i x }
        ensures free { free self.new ≡ free self.old }
        ensures capacity { capacity self.new ≡ capacity self.old }
    {
        mem::replace(&mut self.slots[i], x)
    }

    // Puts `x` behind the last record, or hands it back where there is no room.
    pub fn append(&mut self, x: T) -> Result<(), T>
        ensures value { result ≡ (if nat_lt (length (items self.old)) (capacity self.old) then Ok tt else Err x) }
        ensures items { items self.new ≡ (if is_ok result then items self.old ++ x ∷ [] else items self.old) }
        ensures free { free self.new ≡ (if is_ok result then drop 1 (free self.old) else free self.old) }
        ensures capacity { capacity self.new ≡ capacity self.old }
        ensures same { is_err result ≡ true → self.new ≡ self.old }
    {
        let n = self.len();
        if n >= self.capacity() {
            return Err(x);
        }
        self.slots[n] = x;
        self.len = n + 1;
        Ok(())
    }

    // Takes record `i` out, and the others keep their order.
    pub fn take_out(&mut self, i: usize) -> T
        requires { i < length (items self.old) }
        ensures value { result ≡ slice_index_or (items self.old) i result }
        ensures items { items self.new ≡ remove (items self.old) i }
        ensures free { drop 1 (free self.new) ≡ free self.old }
        ensures capacity { capacity self.new ≡ capacity self.old }
    {
        let old = self.get(i);
        let n = self.len();
        self.slots.copy_within(i + 1..n, i);
        self.len = n - 1;
        old
    }

    // Keeps the first `n` records, where there are more.
    pub fn truncate(&mut self, n: usize)
        ensures items { items self.new ≡ take n (items self.old) }
        ensures free { drop (length (items self.old) - length (items self.new)) (free self.new) ≡ free self.old }
        ensures capacity { capacity self.new ≡ capacity self.old }
    {
        let count = n.min(self.len());
        self.len = count;
    }

    // Keeps the records that pass; they keep their order.
    pub fn retain<F: Fn(&T) -> bool>(&mut self, keeps: F)
        requires { F.IsAlwaysCallable keeps }
        ensures items { (test : T → Bool) → ((x : T) (b : Bool) → FnReturnsAt F.Fn keeps x b → b ≡ test x) → items self.new ≡ filter test (items self.old) }
        ensures free { drop (length (items self.old) - length (items self.new)) (free self.new) ≡ free self.old }
        ensures capacity { capacity self.new ≡ capacity self.old }
    {
        // By place, as the slots are written while they are read.
        let mut count = 0;
        for i in 0..self.len() {
            let x = self.get(i);
            if keeps(&x) {
                self.replace(count, x);
                count += 1;
            }
        }
        self.truncate(count);
    }
}
