// KT of either strength, for programs that choose the function while they run. It decides nothing: each call is the strength's
// own.
ghost use Rattle.std.specs.Prelude.{◌≡◌, length};
ghost use Rattle.sponge.specs.Transcript.{Call};
ghost use Rattle.kangarootwelve.specs.Model.{fresh_of, states_after, output_of, hash_status, hash_output, abreast_status, abreast_output};
ghost use Rattle.functions.specs.Kt.{rate_of, chaining_of, answer_in, abreast_in};

use hasher::HasherAnswer;
use kangarootwelve::{Kt, Kt128, Kt256, Run};

#[derive(Clone, Copy, Debug, PartialEq, Eq)]
pub enum KtFunction {
    Kt128,
    Kt256,
}

// What a call on a run answers: the run handed back, and the status.
#[derive(Clone, Copy)]
pub struct KtAnswer {
    pub run: Run,
    pub status: u8,
}

impl<K: Kt> From<HasherAnswer<K>> for KtAnswer {
    ghost from_gives = { λ answer kt. kt ≡ record { run = K.run_of answer.hasher; status = answer.status } };

    fn from(answer: HasherAnswer<K>) -> KtAnswer {
        KtAnswer {
            run: answer.hasher.run(),
            status: answer.status,
        }
    }
}

pub fn fresh(function: KtFunction) -> Run
    ensures { result ≡ fresh_of (rate_of function) (chaining_of function) }
{
    match function {
        KtFunction::Kt128 => Kt128::fresh().run,
        KtFunction::Kt256 => Kt256::fresh().run,
    }
}

pub fn absorb(function: KtFunction, run: Run, piece: &[u8]) -> KtAnswer
    ensures { result ≡ answer_in function run (Call.absorb piece.now) }
{
    match function {
        KtFunction::Kt128 => Kt128 { run }.absorb(piece).into(),
        KtFunction::Kt256 => Kt256 { run }.absorb(piece).into(),
    }
}

// A piece of the message, with words lent for four leaves abreast.
pub fn absorb_abreast(function: KtFunction, run: Run, piece: &[u8], states: &mut [u64]) -> KtAnswer
    ensures value { result ≡ abreast_in function run (length states.old) piece.now }
    ensures states_after { states.new ≡ states_after result.status states.old }
{
    match function {
        KtFunction::Kt128 => Kt128 { run }.absorb_abreast(piece, states).into(),
        KtFunction::Kt256 => Kt256 { run }.absorb_abreast(piece, states).into(),
    }
}

// A piece of the customization string. The first one, even an empty one, ends the message.
pub fn customize(function: KtFunction, run: Run, piece: &[u8]) -> KtAnswer
    ensures { result ≡ answer_in function run (Call.customize piece.now) }
{
    match function {
        KtFunction::Kt128 => Kt128 { run }.customize(piece).into(),
        KtFunction::Kt256 => Kt256 { run }.customize(piece).into(),
    }
}

// Closes the run with the whole customization string.
pub fn finalize(function: KtFunction, run: Run, customization: &[u8]) -> KtAnswer
    ensures { result ≡ answer_in function run (Call.finalize customization.now) }
{
    match function {
        KtFunction::Kt128 => Kt128 { run }.finalize(customization).into(),
        KtFunction::Kt256 => Kt256 { run }.finalize(customization).into(),
    }
}

// Closes the run with the customization string that was absorbed in pieces.
pub fn finish(function: KtFunction, run: Run) -> KtAnswer
    ensures { result ≡ answer_in function run Call.finish }
{
    match function {
        KtFunction::Kt128 => Kt128 { run }.finish().into(),
        KtFunction::Kt256 => Kt256 { run }.finish().into(),
    }
}

pub fn squeeze(function: KtFunction, run: Run, out: &mut [u8]) -> KtAnswer
    ensures value { result ≡ answer_in function run (Call.squeeze (length out.old)) }
    ensures out_after { out.new ≡ output_of (rate_of function) (chaining_of function) run out.old }
{
    match function {
        KtFunction::Kt128 => Kt128 { run }.squeeze(out).into(),
        KtFunction::Kt256 => Kt256 { run }.squeeze(out).into(),
    }
}

pub fn hash(function: KtFunction, message: &[u8], customization: &[u8], out: &mut [u8]) -> u8
    ensures value { result ≡ hash_status (length message.now) (length customization.now) (length out.old) }
    ensures out_after { out.new ≡ hash_output (rate_of function) (chaining_of function) message.now customization.now out.old }
{
    match function {
        KtFunction::Kt128 => Kt128::hash(message, customization, out),
        KtFunction::Kt256 => Kt256::hash(message, customization, out),
    }
}

// In one go, with words lent for four leaves abreast.
pub fn hash_abreast(
    function: KtFunction,
    message: &[u8],
    customization: &[u8],
    out: &mut [u8],
    states: &mut [u64],
) -> u8
    ensures value { result ≡ abreast_status (length states.old) (length message.now) (length customization.now) (length out.old) }
    ensures out_after { out.new ≡ abreast_output (rate_of function) (chaining_of function) (length states.old) message.now customization.now out.old }
    ensures states_after { states.new ≡ states_after result states.old }
{
    match function {
        KtFunction::Kt128 => Kt128::hash_abreast(message, customization, out, states),
        KtFunction::Kt256 => Kt256::hash_abreast(message, customization, out, states),
    }
}
