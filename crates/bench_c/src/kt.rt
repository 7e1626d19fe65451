// KT128's exports.
ghost use Rattle.std.specs.Prelude.{◌≡◌, [], length};
ghost use Rattle.kangarootwelve.specs.Model.{hash_status, hash_output};
ghost use Rattle.bench.specs.Pieces.{kt_with_none, pieces_status, pieces_output};

// KT128 of a message, with C empty, absorbed in pieces of `step` bytes and squeezed at once.
#[unsafe(no_mangle)]
pub extern "C" fn bench_kt_pieces(message: &[u8], step: usize, out: &mut [u8]) -> u8
    ensures value { result ≡ pieces_status kt_with_none step (length message.now) (length out.old) }
    ensures out_after { out.new ≡ pieces_output kt_with_none step message.now out.old }
{
    bench::kt::bench_kt_pieces(message, step, out)
}

// The same in one go.
#[unsafe(no_mangle)]
pub extern "C" fn bench_kt_one_go(message: &[u8], out: &mut [u8]) -> u8
    ensures value { result ≡ hash_status (length message.now) 0 (length out.old) }
    ensures out_after { out.new ≡ hash_output 168 32 message.now [] out.old }
{
    bench::kt::bench_kt_one_go(message, out)
}
