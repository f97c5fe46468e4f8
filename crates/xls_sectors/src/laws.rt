//! Laws of the definitions, each on a function with an empty body.

ghost use Rattle.xls_sectors.specs.Laws.{ChainsHaveOneOutcome, StreamsHaveOneAnswer, WholeChainsHaveOneAnswer, FilesHaveOneAnswer, AnsweredStreamsAreWhole};

/// Every chain stops at one list of sectors or loops, and never both. A chain of more sectors than
/// there are loops.
pub fn one_outcome()
    ensures { ChainsHaveOneOutcome }
{}

/// Every stream, whole chain and file has exactly one answer, and a stream that is answered has as
/// many bytes as its size says.
pub fn one_answer()
    ensures streams { StreamsHaveOneAnswer }
    ensures chains { WholeChainsHaveOneAnswer }
    ensures files { FilesHaveOneAnswer }
    ensures whole { AnsweredStreamsAreWhole }
{}
