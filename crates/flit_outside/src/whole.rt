ghost use Rattle.std.specs.Prelude.{◌≡◌, ◌≢◌, ℕ, ◌+◌, ◌<◌, ◌≤◌, [], length, take, drop, ◌++◌, Some, IfSome, IfOk, OnOk, OnErr, vec_len};
ghost use Rattle.flit_outside.specs.Outside.{Rose, Appends, LosesFront};
ghost use Rattle.flit_outside.specs.declared.whole.ReadError.TheVariants.{Fault, NoMemory};

use crate::outside::{Failed, Sink, Source};
use std::alloc::{AllocError, Global};

/// How many bytes one read asks for at most.
const PIECE: usize = 65536;

/// Why a source was not read whole.
#[derive(Clone, Copy, Debug, PartialEq, Eq)]
pub enum ReadError {
    /// A read failed.
    Fault,
    /// There was no memory for the bytes.
    NoMemory,
}

impl From<Failed> for ReadError {
    ghost from_gives = { λ _ e. e ≡ Fault };

    fn from(_failed: Failed) -> Self {
        ReadError::Fault
    }
}

impl From<AllocError> for ReadError {
    ghost from_gives = { λ _ e. e ≡ NoMemory };

    fn from(_error: AllocError) -> Self {
        ReadError::NoMemory
    }
}

/// Room for so many bytes.
fn room_for(alloc: Global, count: usize) -> Result<Vec<u8>, AllocError>
    ensures { IfOk result (λ room. vec_len room ≡ count) }
{
    vec![in alloc; 0; count]
}

/// Reads once, into the room, puts what was read behind the bytes and answers how many bytes that
/// was.
fn read_behind<S: Source>(
    source: &mut S,
    room: &mut [u8],
    bytes: &mut Vec<u8>,
) -> Result<usize, ReadError>
    ensures grown { IfOk result (λ n. vec_len bytes.new ≡ vec_len bytes.old + n) }
    ensures within { IfOk result (λ n. n ≤ length room.old) }
    ensures told { IfSome (S.left source.old) (λ input. IfOk result (λ n.
        Appends input n bytes.old.items bytes.new.items (S.left source.new))) }
    ensures end { IfSome (S.left source.old) (λ input. IfOk result (λ n.
        n ≡ 0 → 0 < length room.old → input ≡ [])) }
    ensures fault { result ≡ Err ReadError.Fault
        → Rose (S.faults source.old) (S.faults source.new) }
    ensures steady { result ≢ Err ReadError.Fault
        → S.faults source.new ≡ S.faults source.old }
    ensures lost { OnErr result (IfSome (S.left source.old) (λ input.
        LosesFront (length room.old) input (S.left source.new))) }
    ensures never_falls { S.faults source.old ≤ S.faults source.new }
{
    let count = source.read(room)?;
    bytes.extend_from_slice(&room[..count])?;
    Ok(count)
}

/// The bytes of the source up to its end, but at most `limit` of them. No more of them are read.
///
/// # Errors
/// `Fault` where a read failed, which is not tried again; `NoMemory` where there was no memory for
/// the bytes. What was read until then is lost.
pub fn read_all<S: Source>(
    alloc: Global,
    source: &mut S,
    limit: usize,
) -> Result<Vec<u8>, ReadError>
    ensures bytes { IfOk result (λ bytes. IfSome (S.left source.old) (λ input.
        bytes.items ≡ take limit input)) }
    ensures left { OnOk result (IfSome (S.left source.old) (λ input.
        S.left source.new ≡ Some (drop limit input))) }
    ensures within { IfOk result (λ bytes. vec_len bytes ≤ limit) }
    ensures fault { result ≡ Err ReadError.Fault
        → Rose (S.faults source.old) (S.faults source.new) }
    ensures steady { result ≢ Err ReadError.Fault
        → S.faults source.new ≡ S.faults source.old }
    ensures lost { OnErr result (IfSome (S.left source.old) (λ input.
        LosesFront limit input (S.left source.new))) }
    ensures never_falls { S.faults source.old ≤ S.faults source.new }
{
    let mut bytes = Vec::new(alloc);
    let mut room = room_for(alloc, PIECE)?;
    while bytes.len() < limit {
        let most = room.len().min(limit - bytes.len());
        let count = read_behind(source, &mut room[..most], &mut bytes)?;
        if count == 0 {
            return Ok(bytes);
        }
    }
    Ok(bytes)
}

/// Writes all of the bytes. It makes no write where there are none.
///
/// # Errors
/// `Failed` where a write failed, which is not tried again. The sink has taken a proper front of the
/// bytes then.
pub fn write_all<K: Sink>(sink: &mut K, bytes: &[u8]) -> Result<(), Failed>
    ensures ok { OnOk result (IfSome (K.taken sink.old) (λ before.
        K.taken sink.new ≡ Some (before ++ bytes.now))) }
    ensures fault { OnErr result (Rose (K.faults sink.old) (K.faults sink.new)) }
    ensures steady { OnOk result (K.faults sink.new ≡ K.faults sink.old) }
    ensures front { OnErr result (IfSome (K.taken sink.old) (λ before.
        (n : ℕ) × (n < length bytes.now) × (K.taken sink.new ≡ Some (before ++ take n bytes.now)))) }
    ensures nothing { length bytes.now ≡ 0 → sink.new ≡ sink.old }
    ensures never_falls { K.faults sink.old ≤ K.faults sink.new }
{
    let mut written = 0;
    while written < bytes.len() {
        written += sink.write(&bytes[written..])?;
    }
    Ok(())
}
