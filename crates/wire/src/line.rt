// The bytes of the serial line that both flows speak.

// Sent at the start of a flow.
pub const STX: u8 = 0x02;

// Starts a header.
pub const SOH: u8 = 0x01;

// Accepts.
pub const ACK: u8 = 0x06;

// Refuses.
pub const NAK: u8 = 0x15;
