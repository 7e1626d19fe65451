// A day of events: a run of KT128 whose customization string is the station's name and whose message is the day's events in order, each
// followed by its length encoding.
#![tactic(auto)]

ghost use Rattle.std.specs.Prelude.{◌≡◌, ◌++◌, length};
ghost use Rattle.sponge.specs.Status.{event_too_long, first_of};
ghost use Rattle.sponge.specs.Transcript.{Call};
ghost use Rattle.kangarootwelve.specs.Model as kt;
ghost use Rattle.journal.specs.Model.{fresh_day, answer_of, output_of};
ghost use Rattle.journal.specs.Inside.{as_day};

use hasher::HasherAnswer;
use kangarootwelve::{Kt, Kt128, Run};
use sponge::status;

// The most bytes of an event.
pub const EVENT_LIMIT: u64 = 65535;

// A day: document 01, with the message of request Q-1. Its run is KT128's: two states, the phase, the three totals and the permutations, however long the day.
#[derive(Clone, Copy)]
pub struct Journal {
    pub run: Run,
}

// What a call answers: the status, and the day, which is the one given where the status is not 0.
#[derive(Clone, Copy)]
pub struct Answer {
    pub journal: Journal,
    pub status: u8,
}

impl From<HasherAnswer<Kt128>> for Answer {
    ghost from_gives = { λ answer day. day ≡ record { journal = record { run = answer.hasher.run }; status = answer.status } };

    fn from(answer: HasherAnswer<Kt128>) -> Answer {
        Answer {
            journal: Journal {
                run: answer.hasher.run,
            },
            status: answer.status,
        }
    }
}

// The status of a long event on a run that answers `tried` to an empty piece: the run's own refusals come first.
fn long_status(tried: u8) -> u8
    ensures { result ≡ first_of tried event_too_long }
{
    if tried != status::DONE {
        return tried;
    }
    status::EVENT_TOO_LONG
}

// The day as it was given, with a refusal.
fn refused(given: Run, status: u8) -> Answer
    ensures { result ≡ record { journal = record { run = given }; status = status } }
{
    Answer {
        journal: Journal { run: given },
        status,
    }
}

// Refuses a long event. What the run says of itself is asked with an empty piece, whose answer is not kept.
fn refuse_event(given: Run, empty: &[u8]) -> Answer
    ensures { result ≡ record { journal = record { run = given }; status = first_of (kt.answer_of 168 32 given (Call.absorb empty.now)).status event_too_long } }
{
    let tried = Kt128 { run: given }.absorb(empty);
    refused(given, long_status(tried.status))
}

// Absorbs two pieces in a row, both or neither: what the joined piece gets.
fn absorb_both(given: Run, first: &[u8], second: &[u8]) -> Answer
    ensures { result ≡ as_day (kt.answer_of 168 32 given (Call.absorb (first.now ++ second.now))) }
{
    let one = Kt128 { run: given }.absorb(first);
    if one.status != status::DONE {
        return refused(given, one.status);
    }
    let both = one.hasher.absorb(second);
    if both.status != status::DONE {
        return refused(given, both.status);
    }
    both.into()
}

impl Journal {
    // A fresh day: no event, nothing squeezed.
    pub fn fresh() -> Self
        ensures { result ≡ fresh_day }
    {
        Journal {
            run: Kt128::fresh().run,
        }
    }

    // Appends an event with its length encoding. One that is too long, or does not fit with its encoding, is not taken at all.
    pub fn append(self, event: &[u8]) -> Answer
        ensures { result ≡ answer_of self (Call.absorb event.now) }
    {
        if EVENT_LIMIT < event.len() as u64 {
            return refuse_event(self.run, &event[0..0]);
        }
        let encoding = kangarootwelve::length_encode(event.len() as u64);
        absorb_both(self.run, event, encoding.as_slice())
    }

    // Absorbs a piece of the station's name. The first one, even an empty one, ends the events.
    pub fn customize(self, piece: &[u8]) -> Answer
        ensures { result ≡ answer_of self (Call.customize piece.now) }
    {
        Kt128 { run: self.run }.customize(piece).into()
    }

    // Ends the day under the station's whole name.
    pub fn finalize(self, name: &[u8]) -> Answer
        ensures { result ≡ answer_of self (Call.finalize name.now) }
    {
        Kt128 { run: self.run }.finalize(name).into()
    }

    // Ends the day under the name that was absorbed in pieces.
    pub fn finish(self) -> Answer
        ensures { result ≡ answer_of self Call.finish }
    {
        Kt128 { run: self.run }.finish().into()
    }

    // Squeezes as many bytes of the day's digest as `out` holds.
    pub fn squeeze(self, out: &mut [u8]) -> Answer
        ensures value { result ≡ answer_of self (Call.squeeze (length out.old)) }
        ensures out_after { out.new ≡ output_of self out.old }
    {
        Kt128 { run: self.run }.squeeze(out).into()
    }
}
