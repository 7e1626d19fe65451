// The permutation of four states abreast.
ghost use Rattle.std.specs.Prelude.{◌≡◌, length};
ghost use Rattle.abreast.specs.Four.{states_status};
ghost use Rattle.bench.specs.Repeat.{repeated_four};

// Permutes the four states `count` times; a slice that is not 100 words long is refused and left as it is.
pub fn bench_permute_four(states: &mut [u64], count: usize) -> u8
    ensures value { result ≡ states_status (length states.old) }
    ensures states_after { states.new ≡ repeated_four count states.old }
{
    if states.len() != 100 {
        return abreast::BAD_STATES;
    }
    for _ in 0..count {
        abreast::permute_in_place(states, turboshake::ROUNDS);
    }
    abreast::DONE
}
