ghost use Rattle.std.specs.Prelude.{◌≡◌, [], ◌∷◌, ◌++◌, true, false, IfOk, if◌then◌else◌};

use flit_report::Shown;
use flit_words::NoMemory;

/// The events that turns make, in their order, where they are wanted.
#[derive(Debug, Drop)]
pub struct Events {
    /// Whether they are kept; else none is.
    pub kept: bool,
    pub shown: Vec<Shown>,
}

impl Events {
    /// Keeps an event, where events are wanted.
    #[inline(always)]
    pub(crate) fn show(&mut self, event: Shown) -> Result<(), NoMemory>
        ensures kept { self.new.kept ≡ self.old.kept }
        ensures shown { IfOk result (λ done. self.new.shown.items ≡ self.old.shown.items
            ++ (if self.old.kept then event ∷ [] else [])) }
    {
        if self.kept {
            self.shown.push(event)?;
        }
        Ok(())
    }
}
