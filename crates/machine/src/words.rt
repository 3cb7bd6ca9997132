// A record as eight words, in the order of its fields.
ghost use Rattle.std.specs.Prelude.{◌≡◌};
ghost use Rattle.machine.specs.Words.{record_of, words_of};

use crate::Record;

impl From<[u32; 8]> for Record {
    ghost from_gives = { λ words session. (session ≡ record_of words) × (words_of session ≡ words) };

    fn from(words: [u32; 8]) -> Record {
        Record {
            kind: words[0],
            phase: words[1],
            opcode: words[2],
            length: words[3],
            place: words[4],
            held: words[5],
            reason: words[6],
            spare: words[7],
        }
    }
}

impl From<Record> for [u32; 8] {
    ghost from_gives = { λ session words. words ≡ words_of session };

    fn from(session: Record) -> [u32; 8] {
        [
            session.kind,
            session.phase,
            session.opcode,
            session.length,
            session.place,
            session.held,
            session.reason,
            session.spare,
        ]
    }
}
