ghost use Rattle.std.specs.Prelude.{◌≡◌, IfOk};
ghost use Rattle.flit_report.specs.Content.{recovery_lines};

use crate::lines::write_numbers;
use flit_words::NoMemory;
use std::alloc::Global;

/// The text of a recovery, in ASCII: the line of the keys, for an image with values the line of their values, and the
/// line of the rows that no link reaches. NoMemory comes where there is not memory enough for it.
#[tactic(auto, unfolding(crate::specs::Content::recovery_lines))]
pub fn recovery_text(
    alloc: Global,
    valued: bool,
    keys: &[u32],
    values: &[u32],
    unreached: &[u32],
) -> Result<Vec<u8>, NoMemory>
    ensures { IfOk result (λ text. text.items ≡ recovery_lines valued keys.now values.now
        unreached.now) }
{
    let mut out = String::new(alloc);
    write_numbers(&mut out, "keys", keys)?;
    if valued {
        write_numbers(&mut out, "values", values)?;
    }
    write_numbers(&mut out, "unreached", unreached)?;
    Ok(out.into_bytes())
}
