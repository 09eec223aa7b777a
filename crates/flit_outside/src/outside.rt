ghost use Rattle.std.specs.Prelude.{◌≡◌, ℕ, List, [], length, take, ◌++◌, ◌<◌, ◌≤◌, IfOk, OnOk, OnErr, IfSome, Option};
ghost use Rattle.flit_outside.specs.Outside.{Rose, TakesFront};

use std::error::Error;
use std::fmt;

/// A read or a write failed.
#[derive(Clone, Copy, Debug, PartialEq, Eq)]
pub struct Failed;

impl fmt::Display for Failed {
    fn fmt<W: fmt::Write>(&self, f: &mut fmt::Formatter<W>) -> fmt::Result {
        write!(f, "a read or a write failed")
    }
}

impl Error for Failed {}

/// What bytes are read from.
pub trait Source {
    // The bytes that are not yet read, where the source tells them.
    ghost left: { Self → Option (List ℕ) };

    // How many reads have failed, up to 2^64 - 1: it rises at each that fails, and at no other.
    ghost faults: { Self → ℕ };

    /// Puts bytes into the front of `into` and answers how many, at most the length of `into`.
    /// An answer of 0, where `into` has room, is the end of the bytes.
    ///
    /// # Errors
    /// `Failed` where the bytes can't be read. None is lost then.
    fn read(&mut self, into: &mut [u8]) -> Result<usize, Failed>
        ensures failed { OnErr result (Rose (faults self.old) (faults self.new)
            × (left self.new ≡ left self.old)) }
        ensures steady { OnOk result (faults self.new ≡ faults self.old) }
        ensures never_falls { faults self.old ≤ faults self.new }
        ensures within { IfOk result (λ n. n ≤ length into.old) }
        ensures told { IfSome (left self.old) (λ bytes. IfOk result (λ n.
            TakesFront bytes n into.new (left self.new))) }
        ensures end { IfSome (left self.old) (λ bytes. IfOk result (λ n.
            n ≡ 0 → 0 < length into.old → bytes ≡ [])) };
}

/// What bytes are written to.
pub trait Sink {
    // The bytes taken so far, where the sink tells them.
    ghost taken: { Self → Option (List ℕ) };

    // How many writes have failed, up to 2^64 - 1: it rises at each that fails, and at no other.
    ghost faults: { Self → ℕ };

    /// Takes bytes from the front of `piece` and answers how many, at least 1 unless `piece` is
    /// empty.
    ///
    /// # Errors
    /// `Failed` where no byte can be taken. None is taken then.
    fn write(&mut self, piece: &[u8]) -> Result<usize, Failed>
        ensures failed { OnErr result (Rose (faults self.old) (faults self.new)
            × (taken self.new ≡ taken self.old)) }
        ensures steady { OnOk result (faults self.new ≡ faults self.old) }
        ensures never_falls { faults self.old ≤ faults self.new }
        ensures within { IfOk result (λ n. n ≤ length piece.now) }
        ensures goes_on { 0 < length piece.now → IfOk result (λ n. 0 < n) }
        ensures told { IfSome (taken self.old) (λ bytes. IfOk result (λ n.
            taken self.new ≡ Some (bytes ++ take n piece.now))) };
}
