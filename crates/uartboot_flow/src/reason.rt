// The reasons that the flow itself notes. Those of an opcode, of a command and of its execution are in the crates of these.

// The reason where the length is above the work buffer's.
pub const LONG_PAYLOAD: u32 = 13;

// The reason where the host's CRC differs.
pub const CRC_DIFFERS: u32 = 19;

// The reason where a byte other than 06 came.
pub const NOT_ACKED: u32 = 20;
