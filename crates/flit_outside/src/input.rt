ghost use Rattle.std.specs.Prelude.{◌≡◌, ◌≢◌, ◌+◌, ◌<◌, ◌≤◌, [], length, drop, Some, IfSome, IfOk, OnOk, OnErr, vec_len};
ghost use Rattle.flit_outside.specs.Outside.{Rose, LosesFront};

use crate::outside::Source;
use crate::whole::{ReadError, read_all};
use flit_words::MOST_BYTES;
use std::alloc::Global;

/// Why the bytes of a source are no input.
#[derive(Clone, Copy, Debug, PartialEq, Eq)]
pub enum InputError {
    /// A read failed.
    Fault,
    /// There are more than `MOST_BYTES` bytes.
    TooLong,
    /// There was no memory for the bytes.
    NoMemory,
}

/// All bytes of the source. It is read to its end, or up to one byte past the limit.
///
/// # Errors
/// `Fault` where a read failed, `TooLong` where there are more than `MOST_BYTES` bytes, `NoMemory` where
/// there was no memory for the bytes. What was read until then is lost.
pub fn read_input<S: Source>(alloc: Global, source: &mut S) -> Result<Vec<u8>, InputError>
    ensures bytes { IfOk result (λ bytes. IfSome (S.left source.old) (λ input.
        bytes.items ≡ input)) }
    ensures ended { OnOk result (IfSome (S.left source.old) (λ _. S.left source.new ≡ Some [])) }
    ensures short { IfOk result (λ bytes. vec_len bytes ≤ MOST_BYTES) }
    ensures too_long { result ≡ Err InputError.TooLong
        → IfSome (S.left source.old) (λ input. MOST_BYTES < length input) }
    ensures over { result ≡ Err InputError.TooLong → IfSome (S.left source.old) (λ input.
        S.left source.new ≡ Some (drop (MOST_BYTES + 1) input)) }
    ensures lost { OnErr result (IfSome (S.left source.old) (λ input.
        LosesFront (MOST_BYTES + 1) input (S.left source.new))) }
    ensures fault { result ≡ Err InputError.Fault
        → Rose (S.faults source.old) (S.faults source.new) }
    ensures steady { result ≢ Err InputError.Fault
        → S.faults source.new ≡ S.faults source.old }
    ensures never_falls { S.faults source.old ≤ S.faults source.new }
{
    match read_all(alloc, source, MOST_BYTES + 1) {
        Ok(bytes) if bytes.len() <= MOST_BYTES => Ok(bytes),
        Ok(_) => Err(InputError::TooLong),
        Err(ReadError::Fault) => Err(InputError::Fault),
        Err(ReadError::NoMemory) => Err(InputError::NoMemory),
    }
}
