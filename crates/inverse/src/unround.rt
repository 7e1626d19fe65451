// One round undone, step by step, a lane at a time: it is on no path that has to be fast. Definitions: specs/Inverse.antt.
ghost use Rattle.std.specs.Prelude.{◌≡◌, ◌+◌, ◌*◌, ◌%◌, ◌<◌};
ghost use Rattle.std.specs.Int.Bits.{bit_xor};
ghost use Rattle.keccak.specs.State as state;
ghost use Rattle.keccak.specs.Round as round;
ghost use Rattle.inverse.specs.Inverse as spec;

// Lane (x, y); coordinates are taken modulo 5.
fn lane(a: &[u64; 25], x: usize, y: usize) -> u64
    ensures { result ≡ state.lane a.now x y }
{
    a[x % 5 + 5 * (y % 5)]
}

// Lane (x, y) with chi undone.
fn unchi_lane(a: &[u64; 25], x: usize, y: usize) -> u64
    requires { (x < 5) × (y < 5) }
    ensures { result ≡ spec.unchi_at a.now x y }
{
    let b0 = lane(a, x, y);
    let b1 = lane(a, x + 1, y);
    let b2 = lane(a, x + 2, y);
    let b3 = lane(a, x + 3, y);
    let b4 = lane(a, x + 4, y);
    b0 ^ !b1 & (b2 ^ !b3 & b4)
}

fn unchi(a: [u64; 25]) -> [u64; 25]
    ensures { result ≡ spec.unchi a }
{
    let mut b = a;
    for i in 0..25 {
        b[i] = unchi_lane(&a, i % 5, i / 5);
    }
    b
}

// Lane (x, y) with pi and then rho undone. An offset is below 64, so the difference is never below 0.
fn unrho_unpi_lane(a: &[u64; 25], x: usize, y: usize) -> u64
    requires { (x < 5) × (y < 5) }
    ensures { result ≡ spec.rotr (state.lane a.now y (2 * x + 3 * y)) (state.lane round.offsets x y) }
{
    let offsets = keccak::OFFSETS;
    keccak::rotate_left(lane(a, y, 2 * x + 3 * y), 64 - offsets[x + 5 * y])
}

fn unrho_unpi(a: [u64; 25]) -> [u64; 25]
    ensures { result ≡ spec.unrho (spec.unpi a) }
{
    let mut b = a;
    for i in 0..25 {
        b[i] = unrho_unpi_lane(&a, i % 5, i / 5);
    }
    b
}

// The parity of column x.
fn parity(a: &[u64; 25], x: usize) -> u64
    ensures { result ≡ round.parity a.now x }
{
    let a0 = lane(a, x, 0);
    let a1 = lane(a, x, 1);
    let a2 = lane(a, x, 2);
    let a3 = lane(a, x, 3);
    let a4 = lane(a, x, 4);
    a0 ^ a1 ^ a2 ^ a3 ^ a4
}

fn parities(a: &[u64; 25]) -> [u64; 5]
    ensures { result ≡ spec.parities a.now }
{
    let c0 = parity(a, 0);
    let c1 = parity(a, 1);
    let c2 = parity(a, 2);
    let c3 = parity(a, 3);
    let c4 = parity(a, 4);
    [c0, c1, c2, c3, c4]
}

// Word x of `theta_parities`.
fn theta_parity(p: [u64; 5], t: usize, x: usize) -> u64
    requires { (t < 129) × (x < 5) }
    ensures { result ≡ bit_xor (spec.column p x) (bit_xor (spec.column p (x + 4 * t)) (round.rotl (spec.column p (x + t)) (t % 64))) }
{
    let right = keccak::rotate_left(p[(x + t) % 5], t as u64);
    p[x % 5] ^ (p[(x + 4 * t) % 5] ^ right)
}

fn theta_parities(p: [u64; 5], t: usize) -> [u64; 5]
    requires { t < 129 }
    ensures { result ≡ spec.theta_parities t p }
{
    let p0 = theta_parity(p, t, 0);
    let p1 = theta_parity(p, t, 1);
    let p2 = theta_parity(p, t, 2);
    let p3 = theta_parity(p, t, 3);
    let p4 = theta_parity(p, t, 4);
    [p0, p1, p2, p3, p4]
}

fn untheta_parities(p: [u64; 5]) -> [u64; 5]
    ensures { result ≡ spec.untheta_parities p }
{
    let p1 = theta_parities(p, 1);
    let p2 = theta_parities(p1, 2);
    let p4 = theta_parities(p2, 4);
    let p8 = theta_parities(p4, 8);
    let p16 = theta_parities(p8, 16);
    let p32 = theta_parities(p16, 32);
    theta_parities(p32, 128)
}

// Lane (x, y) with the effect of the parities p.
fn untheta_lane(a: &[u64; 25], p: &[u64; 5], x: usize, y: usize) -> u64
    requires { (x < 5) × (y < 5) }
    ensures { result ≡ bit_xor (state.lane a.now x y) (spec.effect p.now x) }
{
    let right = keccak::rotate_left(p[(x + 1) % 5], 1);
    lane(a, x, y) ^ (p[(x + 4) % 5] ^ right)
}

fn untheta(a: [u64; 25]) -> [u64; 25]
    ensures { result ≡ spec.untheta a }
{
    let c = parities(&a);
    let p = untheta_parities(c);
    let mut b = a;
    for i in 0..25 {
        b[i] = untheta_lane(&a, &p, i % 5, i / 5);
    }
    b
}

// One round undone, for the round constant rc.
pub fn unround(a: [u64; 25], rc: u64) -> [u64; 25]
    ensures { result ≡ spec.unround rc a }
{
    let mut b = a;
    b[0] ^= rc;
    let c = unchi(b);
    let d = unrho_unpi(c);
    untheta(d)
}
