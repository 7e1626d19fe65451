// Nothing is lost between blocks: of two runs of one function that absorb one piece.
#![tactic(auto)]

ghost use Rattle.std.specs.Prelude.{◌≡◌};
ghost use Rattle.sponge.specs.Transcript.{Call};
ghost use Rattle.hasher.specs.Model.{function_of, answer_of};

use hasher::{Answer, Numbers, Run};

// What a call on two runs answers.
#[derive(Clone, Copy)]
pub struct Both {
    pub first: Answer,
    pub second: Answer,
}

// Absorbs one piece into two runs of one function. Where both are answered 0, the bytes absorbed before were as many and the lanes left are the same,
// the two runs given were one and the same: a caller owes nothing, since the lanes are 25 words and the piece is bytes by their types.
pub fn absorb_both(numbers: Numbers, first: Run, second: Run, piece: &[u8]) -> Both
    ensures first_value { result.first ≡ answer_of (function_of numbers) first (Call.absorb piece.now) }
    ensures second_value { result.second ≡ answer_of (function_of numbers) second (Call.absorb piece.now) }
    ensures first_value_2 { first.absorbed ≡ second.absorbed → result.first.status ≡ 0 → result.second.status ≡ 0 → result.first.run.lanes ≡ result.second.run.lanes → first ≡ second }
{
    let one = hasher::absorb(numbers, first, piece);
    let other = hasher::absorb(numbers, second, piece);
    Both {
        first: one,
        second: other,
    }
}
