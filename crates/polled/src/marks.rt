// The marks in their byte. (No `From`: the marks and the byte are both types of other crates.)
ghost use Rattle.std.specs.Prelude.{◌≡◌, ◌<◌, slice_index};
ghost use Rattle.polled.specs.Layout.{marks_of, marks_from};

use crate::bytes::{MARKS, SIZE};
use sink::{Aim, Marks};

const RUNG: u8 = 1;

const QUIET: u8 = 2;

const WAKE: u8 = 4;

pub(crate) fn marks_in(bytes: &[u8; SIZE]) -> Marks
    ensures { result ≡ marks_from (slice_index bytes.now 256) }
{
    let byte = bytes[MARKS];
    Marks {
        rung: byte / RUNG % 2 == 1,
        quiet: byte / QUIET % 2 == 1,
        aim: if byte / WAKE % 2 == 1 {
            Aim::Wake
        } else {
            Aim::Notification
        },
    }
}

pub(crate) fn marks_byte(marks: Marks) -> u8
    ensures value { result ≡ marks_of marks.rung marks.quiet marks.aim }
    ensures small { result < 8 }
{
    let aim = match marks.aim {
        Aim::Notification => 0,
        Aim::Wake => WAKE,
    };
    RUNG * marks.rung as u8 + QUIET * marks.quiet as u8 + aim
}
