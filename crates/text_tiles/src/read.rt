// Reads a text of tiles byte by byte, in pieces of any length.
ghost use Rattle.std.specs.Prelude.{◌≡◌, ◌<◌};
ghost use Rattle.tally_definition.specs.Tallies.{none};
ghost use Rattle.text_tiles_definition.specs.Lines.{fresh, ended, end_of, most_of, grown, digit, tile, closed, step, run};

use tally::{added, empty};
use tally_definition::Tally;
use text_tiles_definition::{ANSWER, ENDED, PASSES, Series};

// The series before a line.
fn fresh(tally: Tally) -> Series
    ensures { result ≡ fresh tally }
{
    Series {
        tally,
        stage: ANSWER,
        answer: 0,
        begun: false,
        value: 0,
    }
}

// The series before its first byte.
pub fn begun() -> Series
    ensures { result ≡ fresh none }
{
    fresh(empty())
}

// The series at its end.
pub fn ended(tally: Tally) -> Series
    ensures { result ≡ ended tally }
{
    Series {
        stage: ENDED,
        ..fresh(tally)
    }
}

// The byte that ends a number, and the most that it may be.
#[tactic(auto, unfolding(text_tiles_definition::specs::Lines::end_of))]
fn end_of(stage: usize) -> u8
    ensures { result ≡ end_of stage }
{
    if stage == ANSWER { b' ' } else { b'\n' }
}

#[tactic(auto, unfolding(text_tiles_definition::specs::Lines::most_of))]
fn most_of(stage: usize) -> usize
    ensures { result ≡ most_of stage }
{
    if stage == ANSWER { 15 } else { 15360 }
}

// The series ends.
fn end(s: &mut Series)
    ensures { s.new ≡ ended s.old.tally }
{
    s.stage = ENDED;
    s.answer = 0;
    s.begun = false;
    s.value = 0;
}

// A digit more, if the number is not too large then.
fn grow(s: &mut Series, d: usize)
    requires { d < 10 }
    ensures { s.new ≡ grown s.old d }
{
    let value = s.value.saturating_mul(10).saturating_add(d);
    if value > most_of(s.stage) {
        end(s);
    } else {
        s.begun = true;
        s.value = value;
    }
}

// None behind a first 0.
#[tactic(auto, unfolding(text_tiles_definition::specs::Lines::digit))]
fn digit(s: &mut Series, d: usize)
    requires { d < 10 }
    ensures { s.new ≡ digit s.old d }
{
    if s.value == 0 && s.begun {
        end(s);
    } else {
        grow(s, d);
    }
}

// A tile that was read: added, or refused, which ends the series.
#[tactic(auto, unfolding(text_tiles_definition::specs::Lines::tile))]
fn tile(s: &mut Series)
    ensures { s.new ≡ tile s.old.tally s.old.answer s.old.value }
{
    match added(s.tally, s.answer, s.value) {
        Ok(sum) => *s = fresh(sum),
        Err(_) => end(s),
    }
}

// A number's end.
#[tactic(auto, unfolding(text_tiles_definition::specs::Lines::closed))]
fn close(s: &mut Series)
    ensures { s.new ≡ closed s.old }
{
    if !s.begun {
        end(s);
    } else if s.stage == ANSWER {
        s.stage = PASSES;
        s.answer = s.value;
        s.begun = false;
        s.value = 0;
    } else {
        tile(s);
    }
}

#[tactic(auto, unfolding(text_tiles_definition::specs::Lines::step))]
fn step(s: &mut Series, b: u8)
    ensures { s.new ≡ step s.old b }
{
    if s.stage >= ENDED {
        return;
    }
    if b == end_of(s.stage) {
        close(s);
    } else if b.is_ascii_digit() {
        digit(s, (b - b'0') as usize);
    } else {
        end(s);
    }
}

// One piece of a text more. The series is changed in place: to build it anew at each byte, with the tally in it, takes twice the time.
pub fn read(s: Series, t: &[u8]) -> Series
    ensures { result ≡ run s t.now }
{
    let mut x = s;
    for &b in t {
        step(&mut x, b);
    }
    x
}
