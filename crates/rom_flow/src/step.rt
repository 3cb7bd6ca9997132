// The steps of the receiver's flow.

use wire::unit::RamAddress;

// The steps that take a header: 01, then the bytes of a length. TakeHigh and TakeExtendedHigh have the low byte.
#[derive(Clone, Copy)]
pub enum HeaderStep {
    TakeSoh,
    TakeLow,
    TakeHigh(u32),
    TakeExtendedLow,
    TakeExtendedHigh(u32),
}

// A step of the flow: the header, the code with its length and the next byte's place, its XOR, or code running at an address.
#[derive(Clone, Copy)]
pub enum Step {
    SendStx,
    Header(HeaderStep),
    SendAck(u32),
    TakeCode(u32, u32),
    SendXor(u32),
    TakeAck(u32),
    SendNak,
    Running(RamAddress),
}
