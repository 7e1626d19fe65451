// The functions of SP 800-185, for programs that choose one while they run. It decides nothing: each call is the type's own.
ghost use Rattle.std.specs.Prelude.{◌≡◌, false, length};
ghost use Rattle.sponge.specs.Transcript.{Call};
ghost use Rattle.functions.specs.Keyed.{start_in, answer_in, written_in, status_in, output_in};

use hasher::{HasherAnswer, Run};
use sp800_185::{
    CShake, CShake128, CShake256, Kmac, Kmac128, Kmac256, KmacXof, KmacXof128, KmacXof256,
};

#[derive(Clone, Copy, Debug, PartialEq, Eq)]
pub enum KeyedFunction {
    CShake128,
    CShake256,
    Kmac128,
    Kmac256,
    KmacXof128,
    KmacXof256,
}

// A run of any of them: one of cSHAKE has the bit that says SHAKE, one of KMAC the output length. What a run does not have is false or 0.
// Kept: a call takes any run, with whatever bit and length (`answer_in`); types that exclude some would ask more of callers.
#[derive(Clone, Copy)]
pub struct KeyedRun {
    pub run: Run,
    pub shake: bool,
    pub output_length: u64,
}

// What a call on a run answers: the run handed back, and the status.
#[derive(Clone, Copy)]
pub struct KeyedAnswer {
    pub keyed: KeyedRun,
    pub status: u8,
}

// Kept: three conversions, one for each trait; one `From` for all would be three impls that overlap.
fn of_cshake<C: CShake>(answer: HasherAnswer<C>) -> KeyedAnswer
    ensures { result ≡ record { keyed = record { run = C.run_of answer.hasher; shake = C.shake_of answer.hasher; output_length = 0 }; status = answer.status } }
{
    let keyed = KeyedRun {
        run: answer.hasher.run(),
        shake: answer.hasher.shake(),
        output_length: 0,
    };
    KeyedAnswer {
        keyed,
        status: answer.status,
    }
}

fn of_kmac<K: Kmac>(answer: HasherAnswer<K>) -> KeyedAnswer
    ensures { result ≡ record { keyed = record { run = K.run_of answer.hasher; shake = false; output_length = K.output_length_of answer.hasher }; status = answer.status } }
{
    let keyed = KeyedRun {
        run: answer.hasher.run(),
        shake: false,
        output_length: answer.hasher.output_length(),
    };
    KeyedAnswer {
        keyed,
        status: answer.status,
    }
}

fn of_kmacxof<K: KmacXof>(answer: HasherAnswer<K>) -> KeyedAnswer
    ensures { result ≡ record { keyed = record { run = K.run_of answer.hasher; shake = false; output_length = 0 }; status = answer.status } }
{
    let keyed = KeyedRun {
        run: answer.hasher.run(),
        shake: false,
        output_length: 0,
    };
    KeyedAnswer {
        keyed,
        status: answer.status,
    }
}

// A start: `first` is the function's name of cSHAKE, else the key, and `string` the customization string.
pub fn start(function: KeyedFunction, first: &[u8], string: &[u8]) -> KeyedAnswer
    ensures { result ≡ start_in function first.now string.now }
{
    match function {
        KeyedFunction::CShake128 => of_cshake(CShake128::start(first, string)),
        KeyedFunction::CShake256 => of_cshake(CShake256::start(first, string)),
        KeyedFunction::Kmac128 => of_kmac(Kmac128::start(first, string)),
        KeyedFunction::Kmac256 => of_kmac(Kmac256::start(first, string)),
        KeyedFunction::KmacXof128 => of_kmacxof(KmacXof128::start(first, string)),
        KeyedFunction::KmacXof256 => of_kmacxof(KmacXof256::start(first, string)),
    }
}

pub fn absorb(function: KeyedFunction, keyed: KeyedRun, piece: &[u8]) -> KeyedAnswer
    ensures { result ≡ answer_in function keyed (Call.absorb piece.now) }
{
    let run = keyed.run;
    let shake = keyed.shake;
    let output_length = keyed.output_length;
    match function {
        KeyedFunction::CShake128 => of_cshake(CShake128 { run, shake }.absorb(piece)),
        KeyedFunction::CShake256 => of_cshake(CShake256 { run, shake }.absorb(piece)),
        KeyedFunction::Kmac128 => of_kmac(Kmac128 { run, output_length }.absorb(piece)),
        KeyedFunction::Kmac256 => of_kmac(Kmac256 { run, output_length }.absorb(piece)),
        KeyedFunction::KmacXof128 => of_kmacxof(KmacXof128 { run }.absorb(piece)),
        KeyedFunction::KmacXof256 => of_kmacxof(KmacXof256 { run }.absorb(piece)),
    }
}

// Ends the message, with the output length in bytes where the function fixes it.
pub fn finalize(function: KeyedFunction, keyed: KeyedRun, length: u64) -> KeyedAnswer
    ensures { result ≡ answer_in function keyed (Call.finalize length) }
{
    let run = keyed.run;
    let shake = keyed.shake;
    let output_length = keyed.output_length;
    match function {
        KeyedFunction::CShake128 => of_cshake(CShake128 { run, shake }.finalize()),
        KeyedFunction::CShake256 => of_cshake(CShake256 { run, shake }.finalize()),
        KeyedFunction::Kmac128 => of_kmac(Kmac128 { run, output_length }.finalize(length)),
        KeyedFunction::Kmac256 => of_kmac(Kmac256 { run, output_length }.finalize(length)),
        KeyedFunction::KmacXof128 => of_kmacxof(KmacXof128 { run }.finalize()),
        KeyedFunction::KmacXof256 => of_kmacxof(KmacXof256 { run }.finalize()),
    }
}

pub fn squeeze(function: KeyedFunction, keyed: KeyedRun, out: &mut [u8]) -> KeyedAnswer
    ensures value { result ≡ answer_in function keyed (Call.squeeze (length out.old)) }
    ensures out_after { out.new ≡ written_in function keyed out.old }
{
    let run = keyed.run;
    let shake = keyed.shake;
    let output_length = keyed.output_length;
    match function {
        KeyedFunction::CShake128 => of_cshake(CShake128 { run, shake }.squeeze(out)),
        KeyedFunction::CShake256 => of_cshake(CShake256 { run, shake }.squeeze(out)),
        KeyedFunction::Kmac128 => of_kmac(Kmac128 { run, output_length }.squeeze(out)),
        KeyedFunction::Kmac256 => of_kmac(Kmac256 { run, output_length }.squeeze(out)),
        KeyedFunction::KmacXof128 => of_kmacxof(KmacXof128 { run }.squeeze(out)),
        KeyedFunction::KmacXof256 => of_kmacxof(KmacXof256 { run }.squeeze(out)),
    }
}

// In one go: the name or the key, the message, the customization string, and as many bytes of output as `out` holds.
pub fn hash(
    function: KeyedFunction,
    first: &[u8],
    message: &[u8],
    string: &[u8],
    out: &mut [u8],
) -> u8
    ensures value { result ≡ status_in function (length first.now) (length string.now) (length message.now) (length out.old) }
    ensures out_after { out.new ≡ output_in function first.now message.now string.now out.old }
{
    match function {
        KeyedFunction::CShake128 => CShake128::hash(message, first, string, out),
        KeyedFunction::CShake256 => CShake256::hash(message, first, string, out),
        KeyedFunction::Kmac128 => Kmac128::tag(first, message, string, out),
        KeyedFunction::Kmac256 => Kmac256::tag(first, message, string, out),
        KeyedFunction::KmacXof128 => KmacXof128::tag(first, message, string, out),
        KeyedFunction::KmacXof256 => KmacXof256::tag(first, message, string, out),
    }
}
