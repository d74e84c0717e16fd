// What is asked of a queue.
ghost use Rattle.std.specs.Prelude.{◌≡◌, ◌<◌, ◌≤◌, length, nat_eq};
ghost use Rattle.fifo.specs.Queue.{lying, held, place};

use crate::queue::Fifo;

impl<T> Fifo<'_, T> {
    // How many elements there are.
    pub fn len(&self) -> usize
        ensures { result ≡ length (held (lying self.now)) }
    {
        self.count
    }

    // Whether there is none.
    pub fn is_empty(&self) -> bool
        ensures { result ≡ nat_eq (length (held (lying self.now))) 0 }
    {
        self.len() == 0
    }

    // The place that lies so far from the oldest element's.
    pub(crate) fn place(&self, far: usize) -> usize
        requires far { far ≤ length self.now.slots.now }
        requires any { 0 < length self.now.slots.now }
        ensures value { result ≡ place far (lying self.now) }
        ensures within { result < length self.now.slots.now }
    {
        let rest = self.slots.len() - self.head;
        if far < rest {
            self.head + far
        } else {
            far - rest
        }
    }
}
