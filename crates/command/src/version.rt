// What Version answers.

pub const VERSION: [u8; 7] = *b"0.0.0.3";
