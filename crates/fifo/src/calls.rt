// What a queue does.
ghost use Rattle.std.specs.Prelude.{◌≡◌, [], ◌∷◌, ◌++◌, length, MatchOption, MatchResult};
ghost use Rattle.fifo.specs.Queue.{lying, held, unused, joined, rest};

use crate::full::Full;
use crate::queue::Fifo;

impl<'a, T: Copy> Fifo<'a, T> {
    // A queue with no element; it writes no slot.
    pub fn new(slots: &'a mut [T]) -> Fifo<'a, T>
        ensures empty { held (lying result) ≡ [] }
        ensures lies { lying result ≡ unused slots.old }
        ensures lent { result.slots.ghost_name ≡ slots.entry.ghost_name }
    {
        Fifo {
            slots,
            head: 0,
            count: 0,
        }
    }

    // Puts an element behind the others, unless no slot is free.
    pub fn push(&mut self, element: T) -> Result<(), Full>
        ensures held { MatchResult result (λ _. held (lying self.new) ≡ held (lying self.old) ++ element ∷ []) (λ _. length (held (lying self.old)) ≡ length self.old.slots.now) }
        ensures lies { MatchResult result (λ _. lying self.new ≡ joined element (lying self.old)) (λ _. lying self.new ≡ lying self.old) }
        ensures lent { self.new.slots.ghost_name ≡ self.old.slots.ghost_name }
    {
        let count = self.count;
        if count == self.slots.len() {
            return Err(Full);
        }
        let place = self.place(count);
        self.slots[place] = element;
        self.count += 1;
        Ok(())
    }

    // Takes the oldest element.
    pub fn pop(&mut self) -> Option<T>
        ensures held { MatchOption result (held (lying self.old) ≡ []) (λ element. held (lying self.old) ≡ element ∷ held (lying self.new)) }
        ensures lies { MatchOption result (lying self.new ≡ lying self.old) (λ _. lying self.new ≡ rest (lying self.old)) }
        ensures lent { self.new.slots.ghost_name ≡ self.old.slots.ghost_name }
    {
        if self.count == 0 {
            return None;
        }
        let element = self.slots[self.head];
        self.head = self.place(1);
        self.count -= 1;
        Some(element)
    }
}
