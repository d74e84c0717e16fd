// The store whose vectors and marks lie in the bytes of a descriptor that it is lent.
ghost use Rattle.std.specs.Prelude.{[], ◌∷◌};
ghost use Rattle.descriptor.specs.Layout.{IsDescriptor};
ghost use Rattle.descriptor.specs.Steps.{descriptor_form};

use crate::bytes::{
    MARKS, NV, SIZE, byte_with, clear_word, marks_byte, marks_in, vector_of, word_at,
};
use sink::{Aim, Marks};
use store::Store;
use vectors::{Group, UsableVector};

// Not made by a `TryFrom`: whoever lends bytes to one would know nothing of them afterwards.
#[derive(Drop)]
pub struct Descriptor<'a> {
    pub(crate) bytes: &'a mut [u8; SIZE],
    ghost whole: { IsDescriptor bytes.now },
}

impl Store for Descriptor<'_> {
    ghost form = { descriptor_form };

    ghost bytes = { λ d. d.bytes.now };

    ghost fixed = { λ d. (d.bytes.ghost_name ∷ []) ∷ [] };

    fn word(&self, group: Group) -> u64 {
        word_at(self.bytes, group.index())
    }

    fn marks(&self) -> Marks {
        marks_in(self.bytes)
    }

    fn note(&mut self, vector: UsableVector) {
        let vector = u8::from(vector);
        self.bytes[vector as usize / 8] = byte_with(self.bytes, vector);
    }

    fn empty(&mut self, group: Group) {
        clear_word(self.bytes, group);
    }

    fn set_rung(&mut self, rung: bool) {
        let marks = self.marks();
        self.bytes[MARKS] = marks_byte(Marks { rung, ..marks });
    }

    fn set_quiet(&mut self, quiet: bool) {
        let marks = self.marks();
        self.bytes[MARKS] = marks_byte(Marks { quiet, ..marks });
    }

    fn set_aim(&mut self, aim: Aim) {
        self.bytes[NV] = vector_of(aim);
    }
}
