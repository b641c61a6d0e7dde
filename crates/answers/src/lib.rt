// What a call answers: a refusal by its number, or what it gives.
//
// "Numbers sent back" of document 01 stand here twice: as definitions (specs/Answer.antt), and as an enum of the code, each case with its number.
#![tactic(auto)]

ghost use Rattle.std.specs.Prelude.{◌≡◌};
ghost use Rattle.answers.specs.Answer.{number_of};
ghost use Rattle.answers.specs.Told.{refusal_told};

// Why a call is refused: a row of document 01's table each, with its number there. (9 is not used: 02 §8.)
#[derive(Clone, Copy, Debug, PartialEq, Eq)]
pub enum Refusal {
    NoSlot = 1,
    NotPresent = 2,
    AtClosing = 3,
    BadLength = 4,
    Full = 5,
    BadWeight = 6,
    NoneFree = 7,
    NoneWaits = 8,
    Unsound = 10,
    NoTerm = 11,
    BadEdition = 12,
    NoShared = 13,
    Parked = 14,
    BadImage = 15,
    ShortBuffer = 16,
    TooMany = 17,
}

// The number of a refusal, by document 01's table.
impl From<Refusal> for u32 {
    ghost from_gives = { λ why n. n ≡ number_of (refusal_told why) };

    fn from(why: Refusal) -> u32 {
        why as u32
    }
}
