// What the benchmarks of bench/ call through the C calling convention: each export is the function of `bench` with that name, under its clauses.
#![tactic(auto)]

mod fips;
mod four;
mod in_place;
mod keyed;
mod kt;

ghost use Rattle.std.specs.Prelude.{◌≡◌, length};
ghost use Rattle.hasher.specs.Model.{one_go_status, one_go_output};
ghost use Rattle.turboshake.specs.Transcript.{function};
ghost use Rattle.bench.specs.Pieces.{timed_turboshake, pieces_status, pieces_output};
ghost use Rattle.bench.specs.Repeat.{repeated};

// Permutes the lanes `count` times.
#[unsafe(no_mangle)]
pub extern "C" fn bench_permute(lanes: &mut [u64; 25], count: usize)
    ensures { lanes.new ≡ repeated count lanes.old }
{
    bench::bench_permute(lanes, count);
}

// TurboSHAKE128 of a message, with D = 1F, absorbed in pieces of `step` bytes and squeezed at once.
#[unsafe(no_mangle)]
pub extern "C" fn bench_pieces(message: &[u8], step: usize, out: &mut [u8]) -> u8
    ensures value { result ≡ pieces_status timed_turboshake step (length message.now) (length out.old) }
    ensures out_after { out.new ≡ pieces_output timed_turboshake step message.now out.old }
{
    bench::bench_pieces(message, step, out)
}

// The same in one go.
#[unsafe(no_mangle)]
pub extern "C" fn bench_one_go(message: &[u8], out: &mut [u8]) -> u8
    ensures value { result ≡ one_go_status (function 168) (length message.now) 0x1F (length out.old) }
    ensures out_after { out.new ≡ one_go_output (function 168) message.now 0x1F out.old }
{
    bench::bench_one_go(message, out)
}
