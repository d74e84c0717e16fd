// The store whose parked vectors and marks lie in the bytes of a page that it is lent.
ghost use Rattle.std.specs.Prelude.{◌≡◌, true, [], ◌∷◌};
ghost use Rattle.polled.specs.Layout.{polled, is_page, marked, page_form};
ghost use Rattle.sink.specs.Meaning.{with_rung, with_quiet, with_aim};

use crate::bytes::{MARKS, SIZE, clear_group, word_at};
use crate::marks::{marks_byte, marks_in};
use sink::{Aim, Marks};
use store::Store;
use vectors::{Group, UsableVector};

// A page that is lent: its bytes are a page for as long as it lasts.
// Not made by a `TryFrom`: whoever lends bytes to one would know nothing of them afterwards.
#[derive(Drop)]
pub struct Page<'a> {
    pub(crate) bytes: &'a mut [u8; SIZE],
    ghost page: { is_page bytes.now ≡ true },
}

impl Page<'_> {
    fn set_marks(&mut self, marks: Marks)
        ensures bytes { self.new.bytes.now ≡ marked self.old.bytes.now marks.rung marks.quiet marks.aim }
        ensures after { polled self.new.bytes.now ≡ with_rung (with_quiet (with_aim (polled self.old.bytes.now) marks.aim) marks.quiet) marks.rung }
        ensures named { self.new.bytes.ghost_name ≡ self.old.bytes.ghost_name }
    {
        self.bytes[MARKS] = marks_byte(marks);
    }
}

impl Store for Page<'_> {
    ghost form = { page_form };

    ghost bytes = { λ p. p.bytes.now };

    ghost fixed = { λ p. (p.bytes.ghost_name ∷ []) ∷ [] };

    fn word(&self, group: Group) -> u64 {
        word_at(self.bytes, group.index())
    }

    fn marks(&self) -> Marks {
        marks_in(self.bytes)
    }

    fn note(&mut self, vector: UsableVector) {
        self.bytes[u8::from(vector) as usize] = 1;
    }

    fn empty(&mut self, group: Group) {
        clear_group(self.bytes, group);
    }

    fn set_rung(&mut self, rung: bool) {
        let marks = self.marks();
        self.set_marks(Marks { rung, ..marks });
    }

    fn set_quiet(&mut self, quiet: bool) {
        let marks = self.marks();
        self.set_marks(Marks { quiet, ..marks });
    }

    fn set_aim(&mut self, aim: Aim) {
        let marks = self.marks();
        self.set_marks(Marks { aim, ..marks });
    }
}
