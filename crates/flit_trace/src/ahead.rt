ghost use Rattle.std.specs.Prelude.{IfSome, IfNone, OnSome};
ghost use Rattle.flit_trace.specs.Drafts.{IsSound};
ghost use Rattle.flit_trace.specs.Heads.{IsRightHead, IsHeadOf, HasStart};
ghost use Rattle.flit_trace.specs.Readings.{LeadsOnlyTo, CannotStand};

use crate::drafts::Draft;
use crate::heads::Head;
use crate::reading::says_nothing;
use crate::sentences::sentence_of;
use flit_words::first_line;

/// Takes a line of the head, or the first one behind it. None comes where the line can't stand there.
fn take_line(draft: &mut Draft, line: &[u8]) -> Option<()>
    requires { IsSound draft.old }
    ensures sound { OnSome result (IsSound draft.new) }
    ensures leads { OnSome result (LeadsOnlyTo draft.old line.now draft.new) }
    ensures none { IfNone result (CannotStand draft.old line.now) }
{
    if says_nothing(line) {
        return line.is_ascii().then_some(());
    }
    let sentence = sentence_of(line)?;
    // The number serves errors alone, and none is handed out.
    draft.take(0, sentence).ok()
}

/// What a trace says before its body, told by its first lines, so that a structure may be made while the other lines
/// are read. None comes where a start block stands, and where the lines up to the body's first are not right.
pub fn head_ahead(bytes: &[u8]) -> Option<Head>
    ensures right { IfSome result IsRightHead }
    ensures head { IfSome result (IsHeadOf bytes.now) }
    ensures start { IfNone result (HasStart bytes.now) }
{
    let mut draft = Draft::blank();
    let mut rest = bytes;
    'lines: while let Some((line, behind)) = first_line(rest) {
        take_line(&mut draft, line)?;
        if !draft.stage.is_early() {
            return (!draft.has_start).then_some(draft.head());
        }
        rest = behind;
    }
    None
}
