// Pieces by the calls on lent lanes.
ghost use Rattle.std.specs.Prelude.{◌≡◌, length};
ghost use Rattle.bench.specs.Pieces.{timed_turboshake, sha3_256, shake128, pieces_status, pieces_output};

// TurboSHAKE128 of a message, with D = 1F.
#[unsafe(no_mangle)]
pub extern "C" fn bench_in_place(message: &[u8], step: usize, out: &mut [u8]) -> u8
    ensures value { result ≡ pieces_status timed_turboshake step (length message.now) (length out.old) }
    ensures out_after { out.new ≡ pieces_output timed_turboshake step message.now out.old }
{
    bench::in_place::bench_in_place(message, step, out)
}

// SHA3-256.
#[unsafe(no_mangle)]
pub extern "C" fn bench_sha3_in_place(message: &[u8], step: usize, out: &mut [u8]) -> u8
    ensures value { result ≡ pieces_status sha3_256 step (length message.now) (length out.old) }
    ensures out_after { out.new ≡ pieces_output sha3_256 step message.now out.old }
{
    bench::in_place::bench_sha3_in_place(message, step, out)
}

// SHAKE128.
#[unsafe(no_mangle)]
pub extern "C" fn bench_shake_in_place(message: &[u8], step: usize, out: &mut [u8]) -> u8
    ensures value { result ≡ pieces_status shake128 step (length message.now) (length out.old) }
    ensures out_after { out.new ≡ pieces_output shake128 step message.now out.old }
{
    bench::in_place::bench_shake_in_place(message, step, out)
}
