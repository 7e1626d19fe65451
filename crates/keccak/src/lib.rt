// Keccak-p[1600, n], the permutation below every function here: FIPS 202, section 3, the last n of its 24 rounds.
//
// A state is 25 lanes of 64 bits. Lane (x, y) stands at x + 5 y, and is bytes 8 (x + 5 y) to
// 8 (x + 5 y) + 7 of the state's 200 bytes, the least significant first.
#![tactic(auto)]

mod round;

ghost use Rattle.std.specs.Prelude.{◌≡◌, ◌%◌};
ghost use Rattle.keccak.specs.Round.{rotl};
ghost use Rattle.keccak.specs.Permutation.{last_rounds, rounds_status};

// The round constants of the 24 rounds of Keccak-f[1600]; the last twelve are document 01's.
pub const ROUND_CONSTANTS: [u64; 24] = [
    0x00000000_00000001,
    0x00000000_00008082,
    0x80000000_0000808A,
    0x80000000_80008000,
    0x00000000_0000808B,
    0x00000000_80000001,
    0x80000000_80008081,
    0x80000000_00008009,
    0x00000000_0000008A,
    0x00000000_00000088,
    0x00000000_80008009,
    0x00000000_8000000A,
    0x00000000_8000808B,
    0x80000000_0000008B,
    0x80000000_00008089,
    0x80000000_00008003,
    0x80000000_00008002,
    0x80000000_00000080,
    0x00000000_0000800A,
    0x80000000_8000000A,
    0x80000000_80008081,
    0x80000000_00008080,
    0x00000000_80000001,
    0x80000000_80008008,
];

// The statuses of a permutation: of up to 24 rounds, and of more.
pub const DONE: u8 = 0;

pub const TOO_MANY_ROUNDS: u8 = 16;

// The rotation offset of lane (x, y), at x + 5 y.
pub const OFFSETS: [u64; 25] = [
    0, 1, 62, 28, 27, 36, 44, 6, 55, 20, 3, 10, 43, 25, 39, 41, 45, 15, 21, 8, 18, 2, 61, 56, 14,
];

// x rotated left by n places modulo 64.
pub fn rotate_left(x: u64, n: u64) -> u64
    ensures { result ≡ rotl x (n % 64) }
{
    x.rotate_left((n % 64) as u32)
}

// Permutes the lent lanes by the last `rounds` of the 24 rounds, for any lanes; more than 24 are refused, and permute nothing.
pub fn permute_in_place(lanes: &mut [u64; 25], rounds: usize) -> u8
    ensures value { result ≡ rounds_status rounds }
    ensures lanes_after { lanes.new ≡ last_rounds rounds lanes.old }
{
    if 24 < rounds {
        return TOO_MANY_ROUNDS;
    }
    // So the compiler knows that the loop is entered: else, where it does not know the rounds, each takes 20 instructions more.
    if rounds == 0 {
        return DONE;
    }
    let mut a = *lanes;
    // Kept: the copy of the table. A loop over a part of the constant itself takes 5 % more instructions, measured.
    let constants = ROUND_CONSTANTS;
    for rc in &constants[24 - rounds..] {
        let b = round::round(a, *rc);
        a = b;
    }
    *lanes = a;
    DONE
}

// What `permute` answers: its status, and the lanes. Kept: a public answer, which refuses by number.
#[derive(Clone, Copy)]
pub struct Permuted {
    pub lanes: [u64; 25],
    pub status: u8,
}

// The same, of lanes by value.
pub fn permute(lanes: [u64; 25], rounds: usize) -> Permuted
    ensures status_value { result.status ≡ rounds_status rounds }
    ensures lanes_value { result.lanes ≡ last_rounds rounds lanes }
{
    let mut a = lanes;
    let status = permute_in_place(&mut a, rounds);
    Permuted { lanes: a, status }
}
