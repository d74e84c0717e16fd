ghost use Rattle.std.specs.Prelude.{◌≡◌, ◌-◌, ◌≤◌, length};

// A queue in lent slots: the elements stand from place `head` on, and go on at place 0 behind the last slot.
#[derive(Drop)]
pub struct Fifo<'a, T> {
    pub(crate) slots: &'a mut [T],
    pub(crate) head: usize,
    pub(crate) count: usize,
    ghost fits: { count ≤ length slots.now },
    ghost within: { head ≤ length slots.now - 1 },
}
