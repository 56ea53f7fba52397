//! What holds of all spellings.

ghost use Rattle.ch_wire.specs.Laws.{RequestsStandApart, AnswersStandApart, FramesStandApart};

/// No spelling of a request begins another's, and so with answers and with frames: what stands at
/// the front of bytes is one item at most, and it has one spelling.
pub fn spellings_stand_apart()
    ensures requests { RequestsStandApart }
    ensures answers { AnswersStandApart }
    ensures frames { FramesStandApart }
{}
