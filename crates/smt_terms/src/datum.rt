//! What terms stand for.

ghost use Rattle.std.specs.Prelude.{◌≡◌, IfOk};
ghost use Rattle.smt_terms.specs.inner.Datum.{meaning, sort_of_datum};

use crate::array::Array;
use crate::vector::Vector;
use rv_words::NoMemory;

/// What a term stands for.
#[derive(Drop)]
pub enum Datum {
    Truth(bool),
    Bits(Vector),
    Array(Array),
}

/// What a term without a sort stands for. None stands in a script.
pub const UNSORTED: Datum = Datum::Truth(false);

/// The same value, which shares the bytes of an array.
pub fn share(datum: &Datum) -> Result<Datum, NoMemory>
    ensures sort { IfOk result (λ d. sort_of_datum d ≡ sort_of_datum datum.now) }
    ensures value { IfOk result (λ d. meaning d ≡ meaning datum.now) }
{
    match datum {
        Datum::Truth(b) => Ok(Datum::Truth(*b)),
        Datum::Bits(v) => Ok(Datum::Bits(*v)),
        Datum::Array(a) => {
            let array = a.share()?;
            Ok(Datum::Array(array))
        }
    }
}
