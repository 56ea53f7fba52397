//! What holds of all streams, and of any list of feeds and takes.

ghost use Rattle.ch_reader.specs.Laws.{ItemsStandApart, StreamIsOne, RefusalIsOne, NeverBoth, RunsAreAccounted, RefusesWhereMalformed, HoldsLittle};

/// A text is a stream of one list of items at most, or malformed with one refusal, and never both.
/// Of two items that may stand in one place neither's spelling begins the other's.
pub fn streams_are_one()
    ensures items { ItemsStandApart }
    ensures stream { StreamIsOne }
    ensures refusal { RefusalIsOne }
    ensures apart { NeverBoth }
{}

/// After any feeds and takes the items handed out, the one that waits and the bytes since are a
/// stream of the bytes taken, or a refusal stands; it does exactly where these are malformed. A
/// reader never holds more than 65,544 bytes.
pub fn runs_are_streams()
    ensures accounted { RunsAreAccounted }
    ensures refused { RefusesWhereMalformed }
    ensures little { HoldsLittle }
{}
