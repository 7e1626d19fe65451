// What bench/abreast.rs calls through the C calling convention: KT128 and KT256, plainly and with four leaves abreast. In an archive of their own: where a
// program has a call at both strengths, or of both engines, the compiler puts fewer of KT's functions into their callers.
#![tactic(auto)]

mod kt128;
mod kt128_abreast;
mod kt256;
mod kt256_abreast;
mod timed;
