//! The answer to a request: one word.

ghost use Rattle.std.specs.Prelude.{◌≡◌};
ghost use Rattle.ch_wire.specs.Words.{word_value};
ghost use Rattle.ch_wire.specs.Spelling.{answer_spelling, answer_numbered};

/// What a target answers to a request for a socket.
#[derive(Clone, Copy, Debug, PartialEq, Eq)]
pub enum Answer {
    /// The socket is taken: frames follow both ways.
    Accepted,
    /// No open endpoint has the number that was asked for.
    Invalid,
    /// Another socket of the two endpoints stands or wins.
    Crossed,
    /// The address isn't the peer's, isn't of the circle, or is the target's own.
    Mismatch,
}

/// The spelling of an answer. It takes no memory.
pub fn answer_bytes(answer: Answer) -> [u8; 4]
    ensures { result ≡ answer_spelling answer }
{
    let number: u32 = match answer {
        Answer::Accepted => 0,
        Answer::Invalid => 1,
        Answer::Crossed => 2,
        Answer::Mismatch => 3,
    };
    number.to_be_bytes()
}

/// The answer that a word spells: none exactly where its number is over 3. It takes no memory.
pub fn answer_of(word: [u8; 4]) -> Option<Answer>
    ensures { result ≡ answer_numbered (word_value word) }
{
    match u32::from_be_bytes(word) {
        0 => Some(Answer::Accepted),
        1 => Some(Answer::Invalid),
        2 => Some(Answer::Crossed),
        3 => Some(Answer::Mismatch),
        _ => None,
    }
}
