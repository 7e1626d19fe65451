// Reads standard input in pieces and writes KT128 of it, with an empty customization string: 32 bytes in hex and a line end. The line
// is `too long` where an absorb answers that, and `read failed` where a read fails before; why it failed is told on standard error.
// With an argument it reads nothing and writes a usage line, on standard error alone.
#![tactic(auto)]

mod failure;

ghost use Rattle.std.specs.Prelude.{◌≡◌, ◌≤◌, length, take, IfOk, IfErr};
ghost use Rattle.turboshake.specs.Transcript.{output_limit};
ghost use Rattle.digest.specs.Digest.{read_len, Absorbed, Absorbs, Digests, Why, Written};

use failure::{Failure, Reason};
use kangarootwelve::{Kt, Kt128};
use sponge::status::DONE;
use std::env::FillError;
use std::io;
use std::io::{ErrorKind, Read};
use std::rt::Env;

// The number of bytes that a read put at the start of a buffer of `most`: none where it came to the end or failed.
fn count(got: io::Result<usize>, most: usize) -> usize
    ensures in_bounds { result ≤ most }
    ensures value { result ≡ read_len got most }
{
    match got {
        Ok(n) => n.min(most),
        Err(_) => 0,
    }
}

// Absorbs the bytes that a read put at the buffer's start, into a run that a message left.
fn absorb_read(hasher: Kt128, buffer: &[u8], got: io::Result<usize>) -> Result<Kt128, Failure>
    requires { Absorbed hasher.run }
    ensures { Absorbs hasher (take (read_len got (length buffer.now)) buffer.now) result }
{
    let n = count(got, buffer.len());
    let answer = hasher.absorb(&buffer[..n]);
    if answer.status != DONE {
        return Err(Failure::TooLong);
    }
    Ok(answer.hasher)
}

// Absorbs the input to its end. A read that a signal interrupted is asked again. A proved loop has to end, and nothing says that the input does: the turns
// are a number that no run uses up.
fn absorb_input(input: &mut impl Read, buffer: &mut [u8]) -> Result<Kt128, Failure>
    ensures taken { IfOk result (λ h. Absorbed h.run) }
    ensures refused { IfErr result (λ failure. Why failure) }
{
    let mut hasher = Kt128::fresh();
    for _ in 0..u64::MAX {
        let got = input.read(buffer);
        hasher = absorb_read(hasher, buffer, got)?;
        match got {
            Ok(0) => return Ok(hasher),
            Ok(_) => {}
            Err(error) if error.kind() == ErrorKind::Interrupted => {}
            Err(error) => return Err(Failure::Read(error)),
        }
    }
    Err(Failure::Endless)
}

// Ends the message, and squeezes as many bytes as `out` holds.
// Kept: a status, which `Digests` proves to be 0 for every message; a Result would have a branch that cannot be.
fn finish(hasher: Kt128, out: &mut [u8]) -> u8
    requires { length out.old ≤ output_limit }
    ensures { Digests hasher.run (length out.old) result out.new }
{
    let customization = [0u8; 0];
    let finalized = hasher.finalize(&customization);
    let last = finalized.hasher;
    let squeezed = last.squeeze(out);
    squeezed.status
}

// The digest's digits and a line end. Nothing is refused of a run that a message left.
fn line_of(hasher: Kt128) -> [u8; 65]
    requires { Absorbed hasher.run }
    ensures { Written hasher.run result }
{
    let mut out = [0u8; 32];
    let status = finish(hasher, &mut out);
    prove_eq!(status, DONE);
    let mut line = [b'\n'; 65];
    let fits = hexadecimal::put(&mut line, 0, &out);
    prove!(fits);
    line
}

// A line is one write, so that a disk which fills cannot cut it between two. The reason of a read is told first, since a write that fails has a reason
// of its own.
fn write_line(rt: &(impl Print + Eprint), absorbed: Result<Kt128, Failure>) -> io::Result<()>
    requires { IfOk absorbed (λ h. Absorbed h.run) }
{
    match absorbed {
        Ok(hasher) => rt.write_all(&line_of(hasher)),
        Err(failure) => {
            if let Failure::Read(error) = failure {
                tell(rt, "read failed", error);
            }
            println!(rt; "{failure}")
        }
    }
}

// Writes what failed and why. That it cannot be written is told nowhere.
fn tell(rt: &impl Eprint, what: &str, error: io::Error) {
    let reason = Reason(error);
    let _ = eprintln!(rt; "{what}: {reason}");
}

fn digest_input(rt: &(impl Input + Print + Eprint)) {
    let mut buffer = [0u8; 65536];
    let absorbed = absorb_input(&mut rt.reader(), &mut buffer);
    if let Err(error) = write_line(rt, absorbed) {
        tell(rt, "write failed", error);
    }
}

// Whether the program was given an argument beside its own name, which is the first. Its text is not asked for.
fn has_argument(rt: &impl Env) -> bool {
    let mut text = [0u8; 0];
    match rt.arg(1, &mut text) {
        Ok(_) | Err(FillError::TooLong) => true,
        Err(FillError::NotPresent) => false,
    }
}

// Who names a file would else get the digest of something else.
fn main(rt: HostRuntime) {
    if has_argument(&rt) {
        let _ = eprintln!(rt; "usage: digest < FILE");
    } else {
        digest_input(&rt);
    }
}
