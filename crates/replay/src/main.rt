// Reads records from standard input, does one call for each, and writes one line for each. It decides nothing: every status and
// every byte is the library's.
//
// A record is one byte op, four bytes n and n bytes of payload, numbers most significant first. R has no payload: n is the number
// of bytes wanted, and they go into a buffer that holds A5 in every byte.
//
//   N  1 byte function                                          a fresh run in hand                  fresh
//   A  the piece, or the event                                  absorb, or append                    status
//   a  2 bytes words, the piece                                 absorb, of KT, with so many          status, the words
//                                                               words lent
//   C  a piece of KT's customization string, or of the          customize                            status
//      station's name
//   F  TurboSHAKE's domain byte, KT's customization string,     finalize                             status
//      the station's name, or the 8 bytes of KMAC's output
//      length; of FIPS 202, cSHAKE and KMACXOF (n = 0)
//   E  (n = 0)                                                  finish, of KT or a day               status
//   R                                                           squeeze                              status, the buffer
//   S  1 byte field, 8 bytes value                              writes a field of the run in hand    set
//   D                                                           no call                              the run in hand
//   T  1 byte function, 1 byte domain byte, 4 bytes L, message  L bytes of TurboSHAKE in one go      as R
//   K  1 byte function, 4 bytes L, 4 bytes length of the        L bytes of KT in one go              as R
//      customization string, that string, message
//   k  2 bytes words, then as K                                 the same with so many words lent     status, the buffer, the words
//   H  1 byte strength, 4 bytes L, 4 bytes length of the key,   L bytes of HopMAC in one go          as R
//      the key, 4 bytes length of the customization string,
//      that string, message
//   B  1 byte function, 4 bytes L, message                      L bytes of FIPS 202 in one go        as R
//   P  1 byte n, 200 bytes                                      the last n rounds on this state      status, the 200 bytes
//   I  as P                                                     the last n rounds undone             as P
//   n  1 byte function, 4 bytes length of the name or of the    start: where it is 0, its run        status
//      key, the name or the key, 4 bytes length of the          is in hand
//      customization string, that string
//   M  1 byte function, 4 bytes L, then as n from the length    L bytes of SP 800-185 in one go      as R
//      of the name or of the key on, message
//   V  1 byte strength, 4 bytes length of the presented tag,    HopMAC's tag check                   status, yes or no
//      the tag, then as H from the key on
//
// The functions are 0 TurboSHAKE128, 1 TurboSHAKE256, 2 KT128, 3 KT256, 4 the journal, whose run is a day, 5 SHA3-224, 6 SHA3-256, 7 SHA3-384,
// 8 SHA3-512, 9 SHAKE128, 10 SHAKE256, 11 cSHAKE128, 12 cSHAKE256, 13 KMAC128, 14 KMAC256, 15 KMACXOF128, 16 KMACXOF256: those of SP 800-185,
// from 11 on, begin with a start, not with N. The strengths are 0 for 128, 1 for 256.
//
// At most 300 words are lent, and A5 is in every byte of them. The line ends with what they hold after the call: `kept`, which is also said
// where there are none, `zero` or `other`.
//
// The input's end before a record ends the program. Any other record, or one that does not fit: `bad record`, and the end.
#![tactic(auto)]

mod by_number;
mod calls;
mod day_run;
mod hopmac;
mod in_hand;
mod keyed_run;
mod kt_run;
mod lent;
mod line;
mod one_go;
mod payload;
mod permutation;
mod record;
mod sponge_run;

use in_hand::InHand;
use line::{Line, TEXT};
use record::{BadRecord, MOST, Record, Stop};
use std::io;
use std::io::Read;

// N and n leave another run in hand; T, B, K, k, M, H, V, P and I need none, and leave the one there is as it is.
// Kept: the ops stay the letters of the records; an enum of them would be read by one more match with the same arms.
fn answer<'a>(
    in_hand: &mut Option<InHand>,
    record: Record,
    out: &'a mut [u8; MOST],
) -> Result<Line<'a>, BadRecord> {
    let Record { op, n, payload } = record;
    match op {
        b'N' => in_hand::fresh(in_hand, payload),
        b'n' => in_hand::start(in_hand, payload),
        b'R' => in_hand::squeeze(in_hand, n, out),
        b'T' => one_go::with_domain(payload, out),
        b'B' => one_go::without_domain(payload, out),
        b'K' => one_go::kt(payload, out),
        b'k' => lent::hash(payload, out),
        b'M' => one_go::keyed(payload, out),
        b'H' => hopmac::tag(payload, out),
        b'V' => hopmac::verify(payload),
        b'P' => permutation::answer(payload, out, keccak::permute_in_place),
        b'I' => permutation::answer(payload, out, inverse::unpermute_in_place),
        _ => in_hand::answer(in_hand, op, payload),
    }
}

// A proved loop has to end, and nothing says that the input does: the turns come to a number that no run uses up.
fn replay(
    rt: &impl Print,
    input: &mut impl Read,
    payload: &mut [u8; MOST],
    out: &mut [u8; MOST],
    text: &mut [u8; TEXT],
) -> Result<(), Stop> {
    let mut in_hand = None;
    for _ in 0..u64::MAX {
        let Some(record) = record::read(input, payload)? else {
            break;
        };
        let line = answer(&mut in_hand, record, out)?;
        line.write(rt, text)?;
    }
    Ok(())
}

fn main(rt: HostRuntime) -> io::Result<()> {
    let mut payload = [0u8; MOST];
    let mut out = [0u8; MOST];
    let mut text = [0u8; TEXT];
    match replay(&rt, &mut rt.reader(), &mut payload, &mut out, &mut text) {
        Err(Stop::Bad(bad)) => println!(rt; "{bad}"),
        Err(Stop::Failed(error)) => Err(error),
        Ok(()) => Ok(()),
    }
}
