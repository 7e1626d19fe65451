// Keccak-p[1600, n] of four states abreast: lane i of state j is word 4 i + j of a lent slice of 100 words.
#![tactic(auto)]

mod round;

ghost use Rattle.std.specs.Prelude.{◌≡◌, length, replicate};
ghost use Rattle.abreast.specs.Four.{permute_status, permuted_four};

// The statuses of a permutation: done, and of a slice that is not 100 words long, which comes before all others.
pub const DONE: u8 = keccak::DONE;

pub const BAD_STATES: u8 = 12;

// Permutes each of the four states by the last `rounds` of the 24 rounds. A slice of another length is refused, then more than 24 rounds; a refused
// call changes nothing.
pub fn permute_in_place(states: &mut [u64], rounds: usize) -> u8
    ensures value { result ≡ permute_status (length states.old) rounds }
    ensures states_after { states.new ≡ permuted_four rounds states.old }
{
    if states.len() != 100 {
        return BAD_STATES;
    }
    if 24 < rounds {
        return keccak::TOO_MANY_ROUNDS;
    }
    // Kept: the copy of the table. A loop over a part of the constant itself takes 5 % more instructions in `keccak`, measured.
    let constants = keccak::ROUND_CONSTANTS;
    for rc in &constants[24 - rounds..] {
        round::round(states, *rc);
    }
    DONE
}

// Clears the lent words, however many.
pub fn clear(states: &mut [u64])
    ensures { states.new ≡ replicate (length states.old) 0 }
{
    // Kept: a loop, since `fill` takes 12 instructions more a call, measured on 100 words.
    for i in 0..states.len() {
        states[i] = 0;
    }
}
