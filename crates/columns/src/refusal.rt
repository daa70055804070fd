// What a call answers that document 01's questions refuse.
ghost use Rattle.std.specs.Prelude.{◌≡◌, true, false, Ok, Err, IfOk, IfErr};
ghost use Rattle.columns.specs.Refusals.{number};

use std::error::Error;
use std::fmt;

// The first question of document 01, "Questions at the door", that the input does not meet.
#[derive(Clone, Copy, Debug, PartialEq, Eq)]
pub enum Refusal {
    IllFormedLine,
    UnknownKind,
    BadDistance,
    BadRounds,
    TooManyVertices,
    ShortColumn,
    UnsoundColumns,
    BadHalfWeight,
    BadProbability,
    NoWeight,
    OrderLength,
    LogNotEmpty,
    NumberOutOfRange,
    RepeatedVertex,
    BadWeight,
    SameVertex,
    Unreached,
    NoCrossing,
}

impl From<Refusal> for u32 {
    ghost from_gives = { λ r n. n ≡ number r };

    // The question's number.
    fn from(refusal: Refusal) -> u32 {
        match refusal {
            Refusal::IllFormedLine => 1,
            Refusal::UnknownKind => 2,
            Refusal::BadDistance => 3,
            Refusal::BadRounds => 4,
            Refusal::TooManyVertices => 5,
            Refusal::ShortColumn => 6,
            Refusal::UnsoundColumns => 7,
            Refusal::BadHalfWeight => 8,
            Refusal::BadProbability => 9,
            Refusal::NoWeight => 10,
            Refusal::OrderLength => 11,
            Refusal::LogNotEmpty => 12,
            Refusal::NumberOutOfRange => 13,
            Refusal::RepeatedVertex => 14,
            Refusal::BadWeight => 15,
            Refusal::SameVertex => 16,
            Refusal::Unreached => 17,
            Refusal::NoCrossing => 18,
        }
    }
}

impl fmt::Display for Refusal {
    fn fmt<W: fmt::Write>(&self, f: &mut fmt::Formatter<W>) -> fmt::Result {
        f.write_str(match self {
            Refusal::IllFormedLine => "the text line is not well formed",
            Refusal::UnknownKind => "the kind is not 1 to 6",
            Refusal::BadDistance => "the distance is not odd, or not 3 to 4,095",
            Refusal::BadRounds => "the rounds are not 0 to 4,095, or not 0 for kind 1, 2 or 5",
            Refusal::TooManyVertices => "the code would have more than 4,096 vertices",
            Refusal::ShortColumn => "a column or the log is too short",
            Refusal::UnsoundColumns => "the columns are not sound",
            Refusal::BadHalfWeight => "the largest half weight is not 1 to 250,000",
            Refusal::BadProbability => "a probability is out of its range",
            Refusal::NoWeight => "no edge has a weight above 0",
            Refusal::OrderLength => "the order list is not as long as the vertices",
            Refusal::LogNotEmpty => "the log is not empty",
            Refusal::NumberOutOfRange => "a vertex or edge number is out of range",
            Refusal::RepeatedVertex => "the order list names a vertex twice",
            Refusal::BadWeight => "a loaded weight is above 500,000",
            Refusal::SameVertex => "both vertices are the same",
            Refusal::Unreached => "the vertex is not reached",
            Refusal::NoCrossing => "no left vertex is joined to a right one",
        })
    }
}

impl Error for Refusal {}

// A question: an input that does not meet it is refused.
pub fn require(met: bool, refusal: Refusal) -> Result<(), Refusal>
    ensures ok { IfOk result (λ u. met ≡ true) }
    ensures err { IfErr result (λ r. (met ≡ false) × (r ≡ refusal)) }
{
    if met { Ok(()) } else { Err(refusal) }
}
