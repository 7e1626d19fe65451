// The calls of KT128 and KT256: one text over the rate and the length of a chaining value. An absorb and a squeeze take the run apart here, which saves
// a copy of it.
ghost use Rattle.std.specs.Prelude.{◌≡◌, ℕ, ◌<◌, ◌≤◌, ◌%◌, length};
ghost use Rattle.std.proofs.Common.{rules};
ghost use Rattle.sponge.specs.Transcript.{Call};
ghost use Rattle.kangarootwelve.specs.Model.{fresh_of, answer_of, answer_abreast, states_after, output_of, hash_status, hash_output, abreast_status, abreast_output};
ghost use Rattle.kangarootwelve.specs.declared.Run.{Run};

use crate::{Kt128, Kt256, Run, Strength, calls, one_go};
use hasher::{Hasher, HasherAnswer};
use turboshake::{TurboShake, TurboShake128, TurboShake256};

impl Strength {
    pub(crate) fn of<K: Kt>() -> Strength
        ensures rate_value { result.rate ≡ K.RATE }
        ensures chaining_value { result.chaining ≡ K.CHAINING }
    {
        Strength {
            rate: K::RATE,
            chaining: K::CHAINING,
        }
    }
}

// A strength: the type of its runs, the rate, the capacity and the length of a chaining value, in bytes.
pub trait Kt: Copy {
    ghost run_of: { Self → Run };

    ghost RATE: { ℕ };

    const RATE: usize;

    ghost CAPACITY: { ℕ };

    const CAPACITY: usize;

    ghost CHAINING: { ℕ };

    const CHAINING: usize;

    fn run(self) -> Run
        ensures { result ≡ run_of self };

    fn from_run(run: Run) -> Self
        ensures { run_of result ≡ run };

    // The rate and a chaining value are whole words, and a value fits a block.
    ghost bounds: { (0 < RATE) × (RATE ≤ 200) × (RATE % 8 ≡ 0) × (0 < CHAINING) × (CHAINING ≤ 64) × (CHAINING % 8 ≡ 0) × (CHAINING ≤ RATE) };

    // A fresh run: nothing absorbed, nothing squeezed.
    final fn fresh() -> Self
        ensures { run_of result ≡ fresh_of RATE CHAINING }
    {
        Self::from_run(calls::fresh())
    }

    // Absorbs a piece of the message.
    final fn absorb(self, piece: &[u8]) -> HasherAnswer<Self>
        ensures { record { status = result.status; run = run_of result.hasher } ≡ answer_of RATE CHAINING (run_of self) (Call.absorb piece.now) }
    {
        let given = self.run();
        let at = calls::progress(given);
        let mut node = given.node;
        let mut leaf = given.leaf;
        let moved = calls::absorb(
            Strength::of::<Self>(),
            &mut node.lanes,
            &mut leaf.lanes,
            at,
            piece,
        );
        HasherAnswer {
            hasher: Self::from_run(calls::run_with(node, leaf, moved.at)),
            status: moved.status,
        }
    }

    // The same, with every four leaves that lie whole in the piece abreast, in a lent slice of 100 words. A call that is done leaves the slice zero.
    final fn absorb_abreast(self, piece: &[u8], states: &mut [u64]) -> HasherAnswer<Self>
        ensures value { record { status = result.status; run = run_of result.hasher } ≡ answer_abreast RATE CHAINING (run_of self) (length states.old) piece.now }
        ensures states_after { states.new ≡ states_after result.status states.old }
    {
        let given = self.run();
        let at = calls::progress(given);
        let mut node = given.node;
        let mut leaf = given.leaf;
        let moved = calls::absorb_abreast(
            Strength::of::<Self>(),
            &mut node.lanes,
            &mut leaf.lanes,
            at,
            piece,
            states,
        );
        HasherAnswer {
            hasher: Self::from_run(calls::run_with(node, leaf, moved.at)),
            status: moved.status,
        }
    }

    // Absorbs a piece of the customization string. The first one, even an empty one, ends the message.
    final fn customize(self, piece: &[u8]) -> HasherAnswer<Self>
        ensures { record { status = result.status; run = run_of result.hasher } ≡ answer_of RATE CHAINING (run_of self) (Call.customize piece.now) }
    {
        let given = self.run();
        let at = calls::progress(given);
        let mut node = given.node;
        let mut leaf = given.leaf;
        let moved = calls::customize(
            Strength::of::<Self>(),
            &mut node.lanes,
            &mut leaf.lanes,
            at,
            piece,
        );
        HasherAnswer {
            hasher: Self::from_run(calls::run_with(node, leaf, moved.at)),
            status: moved.status,
        }
    }

    // Closes the run with the whole customization string.
    final fn finalize(self, customization: &[u8]) -> HasherAnswer<Self>
        ensures { record { status = result.status; run = run_of result.hasher } ≡ answer_of RATE CHAINING (run_of self) (Call.finalize customization.now) }
    {
        let given = self.run();
        let at = calls::progress(given);
        let mut node = given.node;
        let mut leaf = given.leaf;
        let moved = calls::finalize(
            Strength::of::<Self>(),
            &mut node.lanes,
            &mut leaf.lanes,
            at,
            customization,
        );
        HasherAnswer {
            hasher: Self::from_run(calls::run_with(node, leaf, moved.at)),
            status: moved.status,
        }
    }

    // Closes the run with the customization string that was absorbed in pieces.
    final fn finish(self) -> HasherAnswer<Self>
        ensures { record { status = result.status; run = run_of result.hasher } ≡ answer_of RATE CHAINING (run_of self) Call.finish }
    {
        let given = self.run();
        let at = calls::progress(given);
        let mut node = given.node;
        let mut leaf = given.leaf;
        let moved = calls::finish(Strength::of::<Self>(), &mut node.lanes, &mut leaf.lanes, at);
        HasherAnswer {
            hasher: Self::from_run(calls::run_with(node, leaf, moved.at)),
            status: moved.status,
        }
    }

    // Squeezes as many bytes of output as `out` holds.
    final fn squeeze(self, out: &mut [u8]) -> HasherAnswer<Self>
        ensures value { record { status = result.status; run = run_of result.hasher } ≡ answer_of RATE CHAINING (run_of self) (Call.squeeze (length out.old)) }
        ensures out_after { out.new ≡ output_of RATE CHAINING (run_of self) out.old }
    {
        let given = self.run();
        let at = calls::progress(given);
        let mut node = given.node;
        let moved = calls::squeeze(Strength::of::<Self>(), &mut node.lanes, at, out);
        HasherAnswer {
            hasher: Self::from_run(calls::run_with(node, given.leaf, moved.at)),
            status: moved.status,
        }
    }

    // In one go: the message, the customization string, and as many bytes of output as `out` holds.
    final fn hash(message: &[u8], customization: &[u8], out: &mut [u8]) -> u8
        ensures value { result ≡ hash_status (length message.now) (length customization.now) (length out.old) }
        ensures out_after { out.new ≡ hash_output RATE CHAINING message.now customization.now out.old }
    {
        one_go::hash(Strength::of::<Self>(), message, customization, out)
    }

    // The same, with every four leaves that lie whole in the message abreast, in a lent slice of 100 words. A call that is done leaves the slice zero.
    final fn hash_abreast(
        message: &[u8],
        customization: &[u8],
        out: &mut [u8],
        states: &mut [u64],
    ) -> u8
        ensures value { result ≡ abreast_status (length states.old) (length message.now) (length customization.now) (length out.old) }
        ensures out_after { out.new ≡ abreast_output RATE CHAINING (length states.old) message.now customization.now out.old }
        ensures states_after { states.new ≡ states_after result states.old }
    {
        one_go::hash_abreast(Strength::of::<Self>(), message, customization, out, states)
    }
}

impl Kt for Kt128 {
    ghost run_of = { λ h. h.run };

    ghost RATE = { 168 };

    const RATE: usize = TurboShake128::RATE;

    ghost CAPACITY = { 32 };

    const CAPACITY: usize = TurboShake128::CAPACITY;

    ghost CHAINING = { 32 };

    const CHAINING: usize = TurboShake128::CHAINING;

    fn run(self) -> Run {
        let Kt128 { run } = self;
        run
    }

    fn from_run(run: Run) -> Self {
        Kt128 { run }
    }

    ghost bounds = { Prim.search rules };
}

impl Kt for Kt256 {
    ghost run_of = { λ h. h.run };

    ghost RATE = { 136 };

    const RATE: usize = TurboShake256::RATE;

    ghost CAPACITY = { 64 };

    const CAPACITY: usize = TurboShake256::CAPACITY;

    ghost CHAINING = { 64 };

    const CHAINING: usize = TurboShake256::CHAINING;

    fn run(self) -> Run {
        let Kt256 { run } = self;
        run
    }

    fn from_run(run: Run) -> Self {
        Kt256 { run }
    }

    ghost bounds = { Prim.search rules };
}
