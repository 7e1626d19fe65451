// One round of the permutation: FIPS 202, sections 3.2 and 3.3, with the lanes in locals.
//
// One parity, C[1], is held inverted. theta takes it up in D[0] and D[2] alone, so the lanes with x = 0 and x = 2 reach chi inverted. pi brings
// each plane one lane of each x, and these two stand two apart: so chi needs two inversions in a plane instead of five.
ghost use Rattle.std.specs.Prelude.{◌≡◌, ◌<◌, ◌+◌, ◌*◌};
ghost use Rattle.std.specs.Int.Bits.{bit_and, bit_xor};
ghost use Rattle.keccak.specs.State.{lane};
ghost use Rattle.keccak.specs.Round as spec;

use crate::{OFFSETS, rotate_left};

// Kept: the steps, beside those of `abreast`. These hold one parity inverted and take an array; those take a slice and a state's number, and invert
// nothing: they differ in what they compute.

// Five words by their x before pi: theta's D, or plane y, whose lane k stands at x = k + 2 y.
#[derive(Clone, Copy)]
struct Plane(u64, u64, u64, u64, u64);

// theta's D, made with C[1] inverted, so that D[0] and D[2] come out inverted.
fn theta_effect(a: &[u64; 25]) -> Plane
    ensures result_value { result.0 ≡ bit_xor (spec.parity a.now 4) (spec.rotl (spec.complement (spec.parity a.now 1)) 1) }
    ensures result_value_2 { result.1 ≡ bit_xor (spec.parity a.now 0) (spec.rotl (spec.parity a.now 2) 1) }
    ensures result_value_3 { result.2 ≡ bit_xor (spec.complement (spec.parity a.now 1)) (spec.rotl (spec.parity a.now 3) 1) }
    ensures result_value_4 { result.3 ≡ bit_xor (spec.parity a.now 2) (spec.rotl (spec.parity a.now 4) 1) }
    ensures result_value_5 { result.4 ≡ bit_xor (spec.parity a.now 3) (spec.rotl (spec.parity a.now 0) 1) }
{
    let c0 = a[0] ^ a[5] ^ a[10] ^ a[15] ^ a[20];
    let c1 = !(a[1] ^ a[6] ^ a[11] ^ a[16] ^ a[21]);
    let c2 = a[2] ^ a[7] ^ a[12] ^ a[17] ^ a[22];
    let c3 = a[3] ^ a[8] ^ a[13] ^ a[18] ^ a[23];
    let c4 = a[4] ^ a[9] ^ a[14] ^ a[19] ^ a[24];
    Plane(
        c4 ^ c1.rotate_left(1),
        c0 ^ c2.rotate_left(1),
        c1 ^ c3.rotate_left(1),
        c2 ^ c4.rotate_left(1),
        c3 ^ c0.rotate_left(1),
    )
}

// Lane (k, k + 2 y) after theta and rho, where d is D[k]; inverted, where d is. Inlined, k and y are constants, and so are the index and the offset.
fn theta_rho(a: &[u64; 25], d: u64, k: usize, y: usize) -> u64
    requires { (k < 5) × (y < 5) }
    ensures { result ≡ spec.rotl (bit_xor (lane a.now k (k + 2 * y)) d) (lane spec.offsets k (k + 2 * y)) }
{
    let offsets = OFFSETS;
    let i = k + 5 * ((k + 2 * y) % 5);
    rotate_left(a[i] ^ d, offsets[i])
}

// The lanes that pi brings to plane y.
fn theta_rho_pi(a: &[u64; 25], d: Plane, y: usize) -> Plane
    requires { y < 5 }
    ensures result_value { result.0 ≡ spec.rotl (bit_xor (lane a.now 0 (0 + 2 * y)) d.0) (lane spec.offsets 0 (0 + 2 * y)) }
    ensures result_value_2 { result.1 ≡ spec.rotl (bit_xor (lane a.now 1 (1 + 2 * y)) d.1) (lane spec.offsets 1 (1 + 2 * y)) }
    ensures result_value_3 { result.2 ≡ spec.rotl (bit_xor (lane a.now 2 (2 + 2 * y)) d.2) (lane spec.offsets 2 (2 + 2 * y)) }
    ensures result_value_4 { result.3 ≡ spec.rotl (bit_xor (lane a.now 3 (3 + 2 * y)) d.3) (lane spec.offsets 3 (3 + 2 * y)) }
    ensures result_value_5 { result.4 ≡ spec.rotl (bit_xor (lane a.now 4 (4 + 2 * y)) d.4) (lane spec.offsets 4 (4 + 2 * y)) }
{
    Plane(
        theta_rho(a, d.0, 0, y),
        theta_rho(a, d.1, 1, y),
        theta_rho(a, d.2, 2, y),
        theta_rho(a, d.3, 3, y),
        theta_rho(a, d.4, 4, y),
    )
}

// chi of a plane whose lanes 0 and 2 are given inverted; all five come out plain. From the last to the first: so the compiler moves fewer of them to
// and from the stack.
fn chi(b: Plane) -> Plane
    ensures result_value { result.0 ≡ bit_xor (spec.complement b.0) (bit_and (spec.complement b.1) (spec.complement b.2)) }
    ensures result_value_2 { result.1 ≡ bit_xor b.1 (bit_and b.2 b.3) }
    ensures result_value_3 { result.2 ≡ bit_xor (spec.complement b.2) (bit_and (spec.complement b.3) b.4) }
    ensures result_value_4 { result.3 ≡ bit_xor b.3 (bit_and (spec.complement b.4) (spec.complement b.0)) }
    ensures result_value_5 { result.4 ≡ bit_xor b.4 (bit_and b.0 b.1) }
{
    let e4 = b.4 ^ b.0 & b.1;
    let e3 = b.3 ^ !(b.4 | b.0);
    let e2 = b.2 ^ (b.3 | !b.4);
    let e1 = b.1 ^ b.2 & b.3;
    let e0 = b.0 ^ (b.1 | b.2);
    Plane(e0, e1, e2, e3, e4)
}

// One round, for the round constant rc. All planes go through pi before the first goes through chi: one by one, the old lanes and the new ones
// would be held at once. The planes go through chi in the order for which the compiler moves the fewest lanes to and from the stack.
pub fn round(a: [u64; 25], rc: u64) -> [u64; 25]
    ensures { result ≡ spec.round rc a }
{
    let d = theta_effect(&a);
    let b0 = theta_rho_pi(&a, d, 0);
    let b1 = theta_rho_pi(&a, d, 1);
    let b2 = theta_rho_pi(&a, d, 2);
    let b3 = theta_rho_pi(&a, d, 3);
    let b4 = theta_rho_pi(&a, d, 4);
    let e4 = chi(b4);
    let e2 = chi(b2);
    let e3 = chi(b3);
    let e1 = chi(b1);
    let e0 = chi(b0);
    // Lane (x, y) is lane x - 2 y of e_y.
    [
        e0.0 ^ rc,
        e0.1,
        e0.2,
        e0.3,
        e0.4,
        e1.3,
        e1.4,
        e1.0,
        e1.1,
        e1.2,
        e2.1,
        e2.2,
        e2.3,
        e2.4,
        e2.0,
        e3.4,
        e3.0,
        e3.1,
        e3.2,
        e3.3,
        e4.2,
        e4.3,
        e4.4,
        e4.0,
        e4.1,
    ]
}
