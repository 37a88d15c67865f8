// Refusals: why an operation refuses, and where.
ghost use Rattle.std.specs.Prelude.{◌≡◌};
ghost use Rattle.syntax.specs.Refusals.{number_of};

// Why a text or a job is refused.
#[derive(Clone, Copy, PartialEq, Eq, Debug)]
pub enum Reason {
    // Over 2,048 bytes.
    TooLong,
    // A byte that begins no token.
    NoToken,
    // A name over 16 bytes, or a number above 2,147,483,647.
    TooLarge,
    // A token that no program could have there.
    Misplaced,
    // Depth over 24.
    TooDeep,
    // A name not found, or declared while the same name of its kind can be seen.
    BadName,
    // A call with a wrong count of arguments.
    BadCall,
    // No function main, or a main with parameters.
    BadMain,
    // A body that can reach its end.
    OpenEnd,
    // A 17th function, a 5th parameter or a 17th declaration.
    TooMany,
    // Scratch under 16,384 words.
    ShortScratch,
    // Low above high.
    LowAboveHigh,
    // Over 4,096 values.
    WideWindow,
    // Steps 0 or over 1,000.
    BadSteps,
    // Under 16 places for offsets.
    ShortOffsets,
    // A bad job line.
    BadJobLine,
    // A variable read before it is assigned.
    Unassigned,
    // An own pair whose low end is above its high end.
    ReversedPair,
    // An own pair of over 4,096 values.
    WidePair,
    // A slice too short for the whole text.
    ShortOutput,
}

// The number that the operations answer for it.
impl From<Reason> for u32 {
    ghost from_gives = { λ reason number. number ≡ number_of reason };

    fn from(reason: Reason) -> u32 {
        match reason {
            Reason::TooLong => 1,
            Reason::NoToken => 2,
            Reason::TooLarge => 3,
            Reason::Misplaced => 4,
            Reason::TooDeep => 5,
            Reason::BadName => 6,
            Reason::BadCall => 7,
            Reason::BadMain => 8,
            Reason::OpenEnd => 9,
            Reason::TooMany => 10,
            Reason::ShortScratch => 11,
            Reason::LowAboveHigh => 12,
            Reason::WideWindow => 13,
            Reason::BadSteps => 14,
            Reason::ShortOffsets => 15,
            Reason::BadJobLine => 16,
            Reason::Unassigned => 17,
            Reason::ReversedPair => 18,
            Reason::WidePair => 19,
            Reason::ShortOutput => 20,
        }
    }
}

// A refusal: its reason, and a place of the text.
#[derive(Clone, Copy, PartialEq, Eq, Debug)]
pub struct Refusal {
    pub reason: Reason,
    pub place: usize,
}
