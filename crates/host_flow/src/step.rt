// The steps of the host's flow.

// A step of the flow. A number is the place of the next byte of greeting, header, payload or answer, or the low byte of a CRC or a
// length whose high byte comes next.
#[derive(Clone, Copy)]
pub enum Step {
    TakeGreeting(u32),
    SendHeader(u32),
    TakeHeaderAck,
    SendPayload(u32),
    TakePayloadAck,
    TakeCrcLow,
    TakeCrcHigh(u32),
    SendGo,
    SendNak,
    TakeLengthLow,
    TakeLengthHigh(u32),
    SendAnswerGo,
    TakeAnswer(u32),
    SendCrcLow,
    SendCrcHigh,
    TakeLastAck,
    // The next byte is looked at: 02 stays where it is.
    Look,
    // Done, or ended by a reason.
    Over,
}
