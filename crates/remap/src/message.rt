ghost use Rattle.std.specs.Prelude.{◌≡◌};
ghost use Rattle.remap.specs.Messages.{handle as handle_of, shv, sum as sum_of, clear_data, message_questions, index_of};
ghost use Rattle.remap.specs.Questions.{FirstNo};

use crate::faults::Fault;

// What a device writes, and where, to ask for an interrupt.
#[derive(Clone, Copy, PartialEq, Eq, Debug)]
pub struct Message {
    pub address: u32,
    pub data: u32,
}

impl Message {
    // The handle: address bits 19-5 below address bit 2.
    pub fn handle(self) -> u16
        ensures { result ≡ handle_of self }
    {
        let low = (self.address >> 5) % 0x8000;
        let high = (self.address >> 2) % 2;
        (low + high * 0x8000) as u16
    }

    // Whether the data's lower half is a subhandle, to be added to the handle.
    pub fn has_subhandle(self) -> bool
        ensures { result ≡ shv self }
    {
        (self.address >> 3) % 2 == 1
    }

    // The index of the entry that is meant.
    pub fn index(self) -> Result<u32, Fault>
        ensures value { result ≡ index_of self }
        ensures law { FirstNo (message_questions self) result }
    {
        self.questioned()
    }

    // By itself, so that `index` has its law once: here each of four returns would owe it.
    fn questioned(self) -> Result<u32, Fault>
        ensures { result ≡ index_of self }
    {
        if self.address >> 20 != 0xFEE {
            return Err(Fault::Address);
        }
        if (self.address >> 4) % 2 != 1 {
            return Err(Fault::Format);
        }
        if !self.has_clear_data() {
            return Err(Fault::Data);
        }
        Ok(self.sum())
    }

    // Whether the part of the data that is no subhandle is zero.
    fn has_clear_data(self) -> bool
        ensures { result ≡ clear_data self }
    {
        if self.has_subhandle() {
            self.data >> 16 == 0
        } else {
            self.data == 0
        }
    }

    // The handle with the subhandle, without wrapping.
    fn sum(self) -> u32
        ensures { result ≡ sum_of self }
    {
        let handle = self.handle() as u32;
        if self.has_subhandle() {
            handle + self.data % 0x1_0000
        } else {
            handle
        }
    }
}
