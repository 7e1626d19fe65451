// The functions and the strengths by their numbers.
use crate::record::BadRecord;
use functions::Function;
use functions::keyed::KeyedFunction;
use functions::kt::KtFunction;

#[derive(Clone, Copy)]
pub enum Named {
    Sponge(Function),
    Kt(KtFunction),
    Journal,
    Keyed(KeyedFunction),
}

impl TryFrom<u8> for Named {
    type Error = BadRecord;

    fn try_from(number: u8) -> Result<Self, BadRecord> {
        Ok(match number {
            0 => Named::Sponge(functions::turboshake128()),
            1 => Named::Sponge(functions::turboshake256()),
            2 => Named::Kt(KtFunction::Kt128),
            3 => Named::Kt(KtFunction::Kt256),
            4 => Named::Journal,
            5 => Named::Sponge(functions::sha3_224()),
            6 => Named::Sponge(functions::sha3_256()),
            7 => Named::Sponge(functions::sha3_384()),
            8 => Named::Sponge(functions::sha3_512()),
            9 => Named::Sponge(functions::shake128()),
            10 => Named::Sponge(functions::shake256()),
            11 => Named::Keyed(KeyedFunction::CShake128),
            12 => Named::Keyed(KeyedFunction::CShake256),
            13 => Named::Keyed(KeyedFunction::Kmac128),
            14 => Named::Keyed(KeyedFunction::Kmac256),
            15 => Named::Keyed(KeyedFunction::KmacXof128),
            16 => Named::Keyed(KeyedFunction::KmacXof256),
            _ => return Err(BadRecord),
        })
    }
}

// Of HopMAC.
#[derive(Clone, Copy)]
pub enum Strength {
    Bits128,
    Bits256,
}

impl TryFrom<u8> for Strength {
    type Error = BadRecord;

    fn try_from(number: u8) -> Result<Self, BadRecord> {
        match number {
            0 => Ok(Strength::Bits128),
            1 => Ok(Strength::Bits256),
            _ => Err(BadRecord),
        }
    }
}
