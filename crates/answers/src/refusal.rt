// Why a call is refused, by the names of the C header: all but what a run comes to at its marks or its limit.
ghost use Rattle.std.specs.Prelude.{◌≡◌};
ghost use Rattle.answers.specs.Refusals.{answer_to, verdict};

use crate::{Answer, done, refused};

// A length says which array has it, a number that is not finite its index, an entry over 2^53 its place.
#[derive(Clone, Copy)]
pub enum Refusal {
    Dimension,
    Limit,
    NoU,
    NoVt,
    RightSide,
    Length(usize),
    NotFinite(usize),
    Tolerance,
    Edition,
    Run,
    NoBand,
    Pairs,
    Samples,
    EntryOver(usize),
}

// What C gets of it: the number and the place.
impl From<Refusal> for Answer {
    ghost from_gives = { λ r a. a ≡ answer_to r };

    fn from(r: Refusal) -> Answer {
        match r {
            Refusal::Dimension => refused(1, 0),
            Refusal::Limit => refused(2, 0),
            Refusal::NoU => refused(3, 0),
            Refusal::NoVt => refused(4, 0),
            Refusal::RightSide => refused(5, 0),
            Refusal::Length(array) => refused(6, array),
            Refusal::NotFinite(index) => refused(7, index),
            Refusal::Tolerance => refused(11, 0),
            Refusal::Edition => refused(12, 0),
            Refusal::Run => refused(13, 0),
            Refusal::NoBand => refused(14, 0),
            Refusal::Pairs => refused(15, 0),
            Refusal::Samples => refused(25, 0),
            Refusal::EntryOver(place) => refused(26, place),
        }
    }
}

// What C gets of a call that a check alone can refuse.
impl From<Result<(), Refusal>> for Answer {
    ghost from_gives = { λ r a. a ≡ verdict r };

    fn from(r: Result<(), Refusal>) -> Answer {
        match r {
            Ok(()) => done(0),
            Err(refusal) => refusal.into(),
        }
    }
}
