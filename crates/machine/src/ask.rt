// What a step asks: bytes to take, something to send, or nothing since no action is left.
#[derive(Clone, Copy)]
pub enum Ask<Taking, Sending> {
    Take(Taking),
    Send(Sending),
    Halt,
}
