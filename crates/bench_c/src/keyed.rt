// The exports of SP 800-185's cSHAKE128, with N = "N" and S = "S", and KMAC128, with a key of 32 bytes and S = "S".
ghost use Rattle.std.specs.Prelude.{◌≡◌, true, length};
ghost use Rattle.sp800_185.specs.Cshake as cshake;
ghost use Rattle.sp800_185.specs.Kmac as kmac;
ghost use Rattle.bench.specs.Pieces.{bench_name, bench_string, bench_key, cshake_with_strings, timed_kmac, pieces_status, pieces_output};

// cSHAKE128 of a message, absorbed in pieces of `step` bytes and squeezed at once.
#[unsafe(no_mangle)]
pub extern "C" fn bench_cshake_pieces(message: &[u8], step: usize, out: &mut [u8]) -> u8
    ensures value { result ≡ pieces_status cshake_with_strings step (length message.now) (length out.old) }
    ensures out_after { out.new ≡ pieces_output cshake_with_strings step message.now out.old }
{
    bench::keyed::bench_cshake_pieces(message, step, out)
}

// The same in one go.
#[unsafe(no_mangle)]
pub extern "C" fn bench_cshake_one_go(message: &[u8], out: &mut [u8]) -> u8
    ensures value { result ≡ cshake.one_go_status (length bench_name) (length bench_string) (length message.now) (length out.old) }
    ensures out_after { out.new ≡ cshake.one_go_output 168 message.now bench_name bench_string out.old }
{
    bench::keyed::bench_cshake_one_go(message, out)
}

// KMAC128 of a message, absorbed in pieces of `step` bytes, with an output length of 32 bytes, squeezed at once.
#[unsafe(no_mangle)]
pub extern "C" fn bench_kmac_pieces(message: &[u8], step: usize, out: &mut [u8]) -> u8
    ensures value { result ≡ pieces_status timed_kmac step (length message.now) (length out.old) }
    ensures out_after { out.new ≡ pieces_output timed_kmac step message.now out.old }
{
    bench::keyed::bench_kmac_pieces(message, step, out)
}

// KMAC128 in one go, with as many bytes of output as `out` holds.
#[unsafe(no_mangle)]
pub extern "C" fn bench_kmac_one_go(message: &[u8], out: &mut [u8]) -> u8
    ensures value { result ≡ kmac.one_go_status (length bench_key) (length bench_string) (length message.now) (length out.old) }
    ensures out_after { out.new ≡ kmac.one_go_output 168 true bench_key message.now bench_string out.old }
{
    bench::keyed::bench_kmac_one_go(message, out)
}
