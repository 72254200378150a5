//! A first-in first-out queue of any kind of element over memory that the caller lends.
#![tactic(auto)]

ghost use Rattle.std.specs.Prelude.{◌≡◌, ◌+◌, ◌-◌, ◌≤◌, ◌↔◌, [], ◌∷◌, length, drop, IsTrue, MatchOption, MatchResult};
ghost use Rattle.fault.specs.declared.Fault.TheVariants.{QueueFull};

use fault::Fault;

/// A queue over a lent slice. It holds the first `len` elements of the slots from `head` on, round the end.
#[derive(Debug, Drop)]
pub struct Queue<'a, T: Copy> {
    // The caller's memory: a queue owns none, so it stays a slice with two numbers.
    slots: &'a mut [T],
    head: usize,
    len: usize,
    ghost few: { len ≤ length slots.now },
    // One of the slots, and 0 where there are none.
    ghost inside: { head ≤ length slots.now - 1 },
}

impl<'a, T: Copy> Queue<'a, T> {
    ghost use Rattle.queue.specs.Contents.{contents, capacity, memory, onward, place, Appended, Removed};

    /// An empty queue over `slots`, which it leaves as they are.
    pub fn new(slots: &'a mut [T]) -> Queue<'a, T>
        ensures empty { contents result ≡ [] }
        ensures kept { (memory result).now ≡ slots.old }
        ensures lent { (memory result).ghost_name ≡ slots.entry.ghost_name }
        ensures place { place result ≡ 0 }
    {
        Queue {
            slots,
            head: 0,
            len: 0,
        }
    }

    /// The number of elements in the queue.
    pub fn len(&self) -> usize
        ensures { result ≡ length (contents self.now) }
    {
        self.len
    }

    /// The number of elements that the lent memory has room for.
    pub fn capacity(&self) -> usize
        ensures { result ≡ capacity self.now }
    {
        self.slots.len()
    }

    /// The number of elements that can still be put.
    pub fn room(&self) -> usize
        ensures { result + length (contents self.now) ≡ capacity self.now }
    {
        self.capacity() - self.len
    }

    /// Whether there is no element.
    pub fn is_empty(&self) -> bool
        ensures { IsTrue result ↔ (length (contents self.now) ≡ 0) }
    {
        self.len == 0
    }

    /// Whether a put would be refused.
    pub fn is_full(&self) -> bool
        ensures { IsTrue result ↔ (length (contents self.now) ≡ capacity self.now) }
    {
        self.len == self.capacity()
    }

    // The slot `n` on from that of the oldest element, round the end.
    fn slot(&self, n: usize) -> usize
        ensures { result ≡ onward (capacity self.now) self.now.head n }
    {
        let before_end = self.capacity() - self.head;
        if n < before_end {
            self.head + n
        } else {
            n - before_end
        }
    }

    /// Puts an element at the end. A full queue refuses, and is left as it is.
    pub fn put(&mut self, x: T) -> Result<(), Fault>
        ensures { MatchResult result
            (λ _. Appended self.old (x ∷ []) self.new)
            (λ f. (f ≡ QueueFull) × (length (contents self.old) ≡ capacity self.old) × (self.new ≡ self.old)) }
    {
        if self.is_full() {
            return Err(Fault::QueueFull);
        }
        let len = self.len;
        let at = self.slot(len);
        self.slots[at] = x;
        self.len = len + 1;
        Ok(())
    }

    /// The oldest element, which stays.
    pub fn peek(&self) -> Option<T>
        ensures { MatchOption result
            (contents self.now ≡ [])
            (λ x. contents self.now ≡ x ∷ drop 1 (contents self.now)) }
    {
        if self.is_empty() {
            return None;
        }
        Some(self.slots[self.head])
    }

    /// Takes the oldest element out. An empty queue is left as it is.
    pub fn take(&mut self) -> Option<T>
        ensures { MatchOption result
            ((contents self.old ≡ []) × (self.new ≡ self.old))
            (λ x. Removed self.old (x ∷ []) self.new) }
    {
        let x = self.peek()?;
        self.head = self.slot(1);
        self.len -= 1;
        Some(x)
    }
}
