// A remapping entry as a value.
// SQ, SVT and the delivery mode stay numbers: a writer is promised to refuse others by 24h, and an enum could not hold them.
#[derive(Clone, Copy, PartialEq, Eq, Debug)]
pub struct Entry {
    pub present: bool,
    // fault processing disabled; kept, without effect
    pub fpd: bool,
    // four bits for software; kept, without effect
    pub free: u8,
    pub vector: u8,
    // which sources may use the entry: identifier, qualifier and kind of check
    pub sid: u16,
    pub sq: u8,
    pub svt: u8,
    pub target: Target,
}

// Where an entry sends its interrupt: to the host, or into a posted-interrupt descriptor.
#[derive(Clone, Copy, PartialEq, Eq, Debug)]
pub enum Target {
    Host {
        // destination mode
        logical: bool,
        // redirection hint
        hint: bool,
        // trigger mode
        level: bool,
        delivery: u8,
        destination: u32,
    },
    Posted {
        urgent: bool,
        // of the descriptor
        address: u64,
    },
}
