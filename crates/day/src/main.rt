// A day at a station, hashed twice. The shift appends each event to a journal as it comes; the clerk has the whole day in one buffer, each
// event followed by its length encoding, and hashes it in one go. The station's name is the customization string of both, and both have
// the same digest.
//
// Writes a line for each: `shift` or `clerk`, and the 32 bytes of the digest in hex; or `refused`, and the status of a call that was
// not answered 0.
#![tactic(auto)]

ghost use Rattle.std.specs.Prelude.{◌≡◌, ◌≢◌, ◌++◌, ◌+◌, ◌≤◌, length, take, map, sum_by, IfOk, IfErr, OnOk, OnErr};
ghost use Rattle.sponge.specs.Status.{done};
ghost use Rattle.sponge.specs.Transcript.{Call};
ghost use Rattle.journal.specs.Published.{framed, digest};
ghost use Rattle.journal.specs.Model.{answer_of};

use journal::{Answer, Journal};
use kangarootwelve::{Kt, Kt128};
use sponge::status::DONE;
use std::fmt::{Display, Formatter};
use std::{array, fmt, io};

// The status of a call that was not answered 0.
#[derive(Clone, Copy)]
struct Refused(u8);

impl Display for Refused {
    fn fmt<W: fmt::Write>(&self, f: &mut Formatter<W>) -> fmt::Result {
        write!(f, "refused {}", self.0)
    }
}

// Whether a status is 0.
fn answered(status: u8) -> Result<(), Refused>
    ensures ok { OnOk result (status ≡ done) }
    ensures err { IfErr result (λ refused. refused.0 ≡ status) }
{
    if status != DONE {
        return Err(Refused(status));
    }
    Ok(())
}

// The day that an answer hands back.
fn taken(answer: Answer) -> Result<Journal, Refused>
    ensures ok { IfOk result (λ day. answer ≡ record { journal = day; status = done }) }
    ensures err { IfErr result (λ refused. refused.0 ≡ answer.status) }
{
    answered(answer.status)?;
    Ok(answer.journal)
}

// The day with an event appended.
fn appended(day: Journal, event: &[u8]) -> Result<Journal, Refused>
    ensures { IfOk result (λ after. answer_of day (Call.absorb event.now) ≡ record { journal = after; status = done }) }
{
    taken(day.append(event))
}

// The shift's part: a call for each event, as it comes. Answers the digest of the events under the name, or the first status that is not 0.
fn shift<const N: usize>(events: &[&[u8]], name: &[u8]) -> Result<[u8; N], Refused>
    ensures { IfOk result (λ out. out ≡ digest (map (λ event. event.now) events.now) name.now N) }
{
    let mut day = Journal::fresh();
    for event in events {
        day = appended(day, event)?;
    }
    let ended = taken(day.finalize(name))?;
    let mut out = [0u8; N];
    taken(ended.squeeze(&mut out))?;
    Ok(out)
}

// Copies a part into the day's bytes from `at` on, and answers where the next one goes.
fn put(day: &mut [u8], at: usize, part: &[u8]) -> usize
    requires { at + length part.now ≤ length day.old }
    ensures value { result ≡ at + length part.now }
    ensures day_after { take result day.new ≡ take at day.old ++ part.now }
{
    let end = at + part.len();
    day[at..end].copy_from_slice(part);
    end
}

// Puts an event and its length encoding, which is at most nine bytes.
fn put_event(day: &mut [u8], at: usize, event: &[u8]) -> usize
    requires { at + length event.now + 9 ≤ length day.old }
    ensures upper_bound { result ≤ at + length event.now + 9 }
    ensures day_after { take result day.new ≡ take at day.old ++ framed event.now }
{
    let end = put(day, at, event);
    let encoding = kangarootwelve::length_encode(event.len() as u64);
    put(day, end, encoding.as_slice())
}

// The clerk's part: the day's message put together in `day`, which has room for nine bytes of encoding after each event, and one call. Answers as the
// shift's.
fn clerk<const N: usize>(events: &[&[u8]], day: &mut [u8], name: &[u8]) -> Result<[u8; N], Refused>
    requires { sum_by (λ event. length event.now + 9) events.now ≤ length day.old }
    ensures { IfOk result (λ out. out ≡ digest (map (λ event. event.now) events.now) name.now N) }
{
    let mut end = 0;
    for event in events {
        end = put_event(day, end, event);
    }
    let mut out = [0u8; N];
    answered(Kt128::hash(&day[..end], name, &mut out))?;
    Ok(out)
}

// Writes the digest after its heading, or the refusal.
fn write_line(rt: &impl Print, heading: &str, digest: Result<[u8; 32], Refused>) -> io::Result<()> {
    match digest {
        Ok(bytes) => {
            let mut line = [b'\n'; 65];
            let fits = hexadecimal::put(&mut line, 0, &bytes);
            prove!(fits);
            print!(rt; "{heading}")?;
            rt.write_all(&line)
        }
        Err(refused) => println!(rt; "{refused}"),
    }
}

fn main(rt: HostRuntime) -> io::Result<()> {
    let name = b"Hanbeorit station 3";
    // The sensor's dump: byte i is i modulo 251.
    let dump: [u8; 9000] = array::from_fn(|i| (i % 251) as u8);
    let events: [&[u8]; 5] = [
        b"06:00 pump 3 on\n",
        b"06:02 level 3 at 41 cm\n",
        b"",
        &dump,
        b"22:00 pump 3 off\n",
    ];
    // Room for the five events, 16, 23, 0, 9,000 and 17 bytes, and for nine bytes of encoding after each.
    let mut day = [0u8; 9101];
    write_line(&rt, "shift ", shift(&events, name))?;
    write_line(&rt, "clerk ", clerk(&events, &mut day, name))
}
