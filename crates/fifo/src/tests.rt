// The owner's slots under a queue, at two kinds of element.
ghost use Rattle.std.specs.Prelude.{◌≡◌, ◌<◌, [], ◌∷◌, ◌++◌, length, take, drop, set};

use crate::{Fifo, Full};

// A fault record, as reports have them.
#[derive(Clone, Copy, PartialEq, Eq, Debug)]
struct Record {
    code: u8,
    source: u16,
    index: u32,
}

// The slot of one push is written, and the others stay.
fn note<T: Copy>(slots: &mut [T], element: T)
    requires { 0 < length slots.old }
    ensures { slots.new ≡ set slots.old 0 element }
{
    let mut queue = Fifo::new(slots);
    let _ = queue.push(element);
}

#[test]
fn freed_slots_serve_again(rt: HostRuntime) {
    let mut slots = [7u8; 3];
    let mut queue = Fifo::new(&mut slots);
    assert_eq!(rt; queue.push(1), Ok(()));
    assert_eq!(rt; queue.push(2), Ok(()));
    assert_eq!(rt; queue.pop(), Some(1));
    assert_eq!(rt; queue.push(3), Ok(()));
    assert_eq!(rt; queue.push(4), Ok(()));
    assert_eq!(rt; queue.push(5), Err(Full));
    assert_eq!(rt; queue.len(), 3);
    assert_eq!(rt; queue.pop(), Some(2));
    assert_eq!(rt; queue.pop(), Some(3));
    assert_eq!(rt; queue.pop(), Some(4));
    assert_eq!(rt; queue.pop(), None);
    assert_eq!(rt; slots, [4, 2, 3]);
}

#[test]
fn a_record_stands_in_the_first_slot(rt: HostRuntime) {
    let blank = Record {
        code: 0,
        source: 0,
        index: 0,
    };
    let record = Record {
        code: 0x26,
        source: 0x0102,
        index: 3,
    };
    let mut slots = [blank; 2];
    note(&mut slots, record);
    assert_eq!(rt; slots, [record, blank]);
}

#[test]
fn no_slot_holds_nothing(rt: HostRuntime) {
    let mut slots: [u8; 0] = [];
    let mut queue = Fifo::new(&mut slots);
    assert_eq!(rt; queue.push(1), Err(Full));
    assert!(rt; queue.is_empty());
    assert_eq!(rt; u8::from(Full), 0x0F);
}
