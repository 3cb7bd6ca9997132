// The reasons that end a host's command.

// The reason where the device sent 15.
pub const DEVICE_REFUSED: u32 = 73;

// The reason where the device's CRC differs.
pub const DEVICE_CRC: u32 = 74;

// The reason where the device sent a byte, or an answer length, that the flow doesn't allow.
pub const OUT_OF_FLOW: u32 = 75;
