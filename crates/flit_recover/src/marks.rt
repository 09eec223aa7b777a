ghost use Rattle.std.specs.Prelude.{◌≡◌, ◌≤◌, not, filter, [], ◌∷◌, ◌++◌, IfOk, OnOk, IfErr};
ghost use Rattle.std.specs.List.{range_with_len};
ghost use Rattle.flit_words.specs.Layouts.{Accepted, first_row_of, last_row_of};
ghost use Rattle.flit_recover.specs.declared.found.Damage.TheVariants.{NoMemory as No_memory};
ghost use Rattle.flit_recover.specs.ListWalks.{stands_in};
ghost use Rattle.flit_recover.specs.Marks.{AreMarks};

use crate::found::Damage;
use flit_words::Layout;
use std::alloc::{AllocError, AllocFailed, Global};

impl From<AllocError> for Damage {
    ghost from_gives = { λ _ d. d ≡ No_memory };

    fn from(_error: AllocError) -> Damage {
        Damage::NoMemory
    }
}

impl<T: Drop> From<AllocFailed<T>> for Damage {
    ghost from_gives = { λ _ d. d ≡ No_memory };

    fn from(_failed: AllocFailed<T>) -> Damage {
        Damage::NoMemory
    }
}

/// The rows that a walk reached, in its order, and a mark for each row from 0 to the last.
#[derive(Debug, Drop)]
pub(crate) struct Reached {
    pub(crate) rows: Vec<u32>,
    pub(crate) marks: Vec<bool>,
}

impl Reached {
    pub(crate) fn new(alloc: Global, layout: &Layout) -> Result<Reached, Damage>
        requires { Accepted layout.now }
        ensures rows { IfOk result (λ r. r.rows.items ≡ []) }
        ensures marks { IfOk result (λ r. AreMarks (last_row_of layout.now) r.marks.items
            r.rows.items) }
        ensures err { IfErr result (λ d. d ≡ Damage.NoMemory) }
    {
        let marks = vec![in alloc; false; layout.last_row() as usize + 1]?;
        Ok(Reached {
            rows: Vec::new(alloc),
            marks,
        })
    }

    pub(crate) fn push(&mut self, layout: &Layout, row: u32) -> Result<(), Damage>
        requires within { row ≤ last_row_of layout.now }
        requires marks { AreMarks (last_row_of layout.now) self.old.marks.items
            self.old.rows.items }
        ensures rows { OnOk result (self.new.rows.items ≡ self.old.rows.items ++ row ∷ []) }
        ensures marks { OnOk result (AreMarks (last_row_of layout.now) self.new.marks.items
            self.new.rows.items) }
        ensures err { IfErr result (λ d. d ≡ Damage.NoMemory) }
    {
        self.rows.push(row)?;
        self.marks[row as usize] = true;
        Ok(())
    }

    /// The rows that a call may be given and that weren't reached, in rising order.
    pub(crate) fn free_rows(&self, alloc: Global, layout: &Layout) -> Result<Vec<u32>, Damage>
        requires accepted { Accepted layout.now }
        requires marks { AreMarks (last_row_of layout.now) self.now.marks.items
            self.now.rows.items }
        ensures rows { IfOk result (λ f. f.items
            ≡ filter (λ r. not (stands_in self.now.rows.items r))
            (range_with_len (first_row_of layout.now.kind) layout.now.rows)) }
        ensures err { IfErr result (λ d. d ≡ Damage.NoMemory) }
    {
        let mut free = Vec::with_capacity(alloc, layout.rows as usize)?;
        for row in layout.first_row()..layout.last_row() + 1 {
            if !self.marks[row as usize] {
                free.push(row)?;
            }
        }
        Ok(free)
    }
}
