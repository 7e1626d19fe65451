// The inverse of the permutation of `keccak`: the last n of the 24 rounds undone, the last first (request Q-13).
#![tactic(auto)]

mod unround;

ghost use Rattle.std.specs.Prelude.{◌≡◌};
ghost use Rattle.keccak.specs.Permutation.{rounds_status};
ghost use Rattle.inverse.specs.Inverse.{last_unrounds};

// Undoes the last `rounds` of the 24 rounds on the lent lanes, for any lanes; more than 24 are refused, and undo nothing.
pub fn unpermute_in_place(lanes: &mut [u64; 25], rounds: usize) -> u8
    ensures value { result ≡ rounds_status rounds }
    ensures lanes_after { lanes.new ≡ last_unrounds rounds lanes.old }
{
    if 24 < rounds {
        return keccak::TOO_MANY_ROUNDS;
    }
    let mut a = *lanes;
    let constants = keccak::ROUND_CONSTANTS;
    for left in (0..rounds).rev() {
        let b = unround::unround(a, constants[24 - rounds + left]);
        a = b;
    }
    *lanes = a;
    keccak::DONE
}

// What `unpermute` answers: its status, and the lanes. Kept: a public answer, which refuses by number.
#[derive(Clone, Copy)]
pub struct Unpermuted {
    pub lanes: [u64; 25],
    pub status: u8,
}

// The same, of lanes by value.
pub fn unpermute(lanes: [u64; 25], rounds: usize) -> Unpermuted
    ensures status_value { result.status ≡ rounds_status rounds }
    ensures lanes_value { result.lanes ≡ last_unrounds rounds lanes }
{
    let mut a = lanes;
    let status = unpermute_in_place(&mut a, rounds);
    Unpermuted { lanes: a, status }
}

// Done and then undone: the lanes given, whatever they hold and however many rounds are asked.
pub fn unpermute_after_permute(lanes: [u64; 25], rounds: usize) -> Unpermuted
    ensures { result ≡ record { lanes = lanes; status = rounds_status rounds } }
{
    let permuted = keccak::permute(lanes, rounds);
    let after = permuted.lanes;
    unpermute(after, rounds)
}

// Undone and then done: the same.
pub fn permute_after_unpermute(lanes: [u64; 25], rounds: usize) -> keccak::Permuted
    ensures { result ≡ record { lanes = lanes; status = rounds_status rounds } }
{
    let unpermuted = unpermute(lanes, rounds);
    let before = unpermuted.lanes;
    keccak::permute(before, rounds)
}
