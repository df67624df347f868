// Why a call of the store is refused, by the names and numbers of the C header, and what C gets of a call's result.
ghost use Rattle.std.specs.Prelude.{◌≡◌};
ghost use Rattle.store.specs.Refusals.{answer_to, verdict, counted};

use answers::{Answer, done, refused};

// A refusal, by its number.
#[derive(Clone, Copy)]
pub enum StoreRefusal {
    Length = 6,
    Full = 30,
    Held = 31,
    Missing = 32,
    Entries = 33,
    Owner = 34,
    Quotas = 35,
    Buffer = 37,
    Damaged = 39,
}

impl From<StoreRefusal> for Answer {
    ghost from_gives = { λ r a. a ≡ answer_to r };

    fn from(r: StoreRefusal) -> Answer {
        refused(r as usize, 0)
    }
}

pub fn answer_of(r: Result<(), StoreRefusal>) -> Answer
    ensures { result ≡ verdict r }
{
    match r {
        Ok(()) => done(0),
        Err(refusal) => refusal.into(),
    }
}

// The same of a call that counts.
pub fn count_of(r: Result<usize, StoreRefusal>) -> Answer
    ensures { result ≡ counted r }
{
    match r {
        Ok(count) => done(count),
        Err(refusal) => refusal.into(),
    }
}
