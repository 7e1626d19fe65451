// KT256's exports with four leaves abreast.
ghost use Rattle.std.specs.Prelude.{◌≡◌, [], length};
ghost use Rattle.kangarootwelve.specs.Model.{hash_status, hash_output};
ghost use Rattle.bench.specs.Pieces.{kt256_with_none, pieces_status, pieces_output};

use crate::timed::{Abreast, hash_abreast};
use bench::pieces::hash_pieces;
use kangarootwelve::Kt256;

// KT256 of a message, with C empty, absorbed in pieces of `step` bytes and squeezed at once.
#[unsafe(no_mangle)]
pub extern "C" fn bench_kt256_pieces_abreast(message: &[u8], step: usize, out: &mut [u8]) -> u8
    ensures value { result ≡ pieces_status kt256_with_none step (length message.now) (length out.old) }
    ensures out_after { out.new ≡ pieces_output kt256_with_none step message.now out.old }
{
    hash_pieces::<Abreast<Kt256>>(message, step, out)
}

// The same in one go.
#[unsafe(no_mangle)]
pub extern "C" fn bench_kt256_one_go_abreast(message: &[u8], out: &mut [u8]) -> u8
    ensures value { result ≡ hash_status (length message.now) 0 (length out.old) }
    ensures out_after { out.new ≡ hash_output 136 64 message.now [] out.old }
{
    hash_abreast::<Kt256>(message, out)
}
