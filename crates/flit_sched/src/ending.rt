ghost use Rattle.std.specs.Prelude.{◌≡◌, ◌<◌, ◌≤◌, ℕ, IsSome, Option, length};
ghost use Rattle.flit_model.specs.declared.calls.Call.{Call as A_call};
ghost use Rattle.flit_structure.specs.declared.workers.Doing.TheVariants.{Busy};
ghost use Rattle.flit_structure.specs.Meanings.{MayTake, asked_by, goes_on};
ghost use Rattle.flit_sched.specs.Turns.{part_after, read_in, over_ended, outcomes_ended, read_ended};
ghost use Rattle.flit_sched.specs.Kept.{part_of};
ghost use Rattle.flit_sched.specs.Seats.{doing_of, seated, played, HasEnded};

use crate::players::Player;
use crate::seats::Seat;
use crate::turning::{End, take};
use flit_model::{Call, Outcome, Reply};
use flit_structure::Structure;

/// Notes how an event ended the item of a worker, if it did. It answers the read that is completed by it: its call, how
/// many updates were settled at its first event, and its reply.
fn note_end<W>(player: &mut Player<W>, end: End) -> Option<(Call, u64, Reply)>
    requires within { player.old.over < length player.old.work.items.items }
    requires outcomes { length player.old.outcomes.items ≡ length player.old.work.items.items }
    ensures over { player.new.over ≡ over_ended player.old.over end }
    ensures outcomes { player.new.outcomes.items ≡ outcomes_ended player.old.outcomes.items
        player.old.over end }
    ensures same { player.new ≡ record player.old {
      over = player.new.over;
      outcomes =
          player.new.outcomes;
    } }
    ensures read { result ≡ read_ended end }
{
    match end {
        End::NotYet => None,
        End::Evicted => {
            player.over += 1;
            None
        }
        End::Replied { call, first, reply } => {
            player.outcomes[player.over] = Some(Outcome::Replied(reply));
            player.over += 1;
            let is_read = match (call, reply) {
                (Call::Insert(_, _) | Call::Remove(_), Reply::No) => true,
                (Call::Contains(_), Reply::Yes | Reply::No) => true,
                (Call::Get(_), Reply::Found { .. } | Reply::No) => true,
                _ => false,
            };
            is_read.then_some((call, first, reply))
        }
    }
}

/// Gives a worker its event's answer, and is done with its item where that was the last event. It answers the read
/// that is completed by it.
pub(crate) fn end_turn<S: Structure>(
    structure: &S,
    player: &mut Player<Seat<S::Op>>,
    settled: u64,
    answer: u64,
) -> Option<(Call, u64, Reply)>
    requires asks { IsSome (asked_by (S.meaning structure.now)
        (seated (S.meaning structure.now) player.old.worker)) }
    requires told { (op : S.Op) (call : A_call) (begun : Option ℕ) →
        doing_of (S.meaning structure.now) player.old.worker.name player.old.worker.at ≡ Busy op
        call begun → MayTake (S.meaning structure.now) op answer }
    requires within { player.old.over < length player.old.work.items.items }
    requires outcomes { length player.old.outcomes.items ≡ length player.old.work.items.items }
    ensures part { let m = S.meaning structure.now in let p = played m player.old in
        part_of (played m player.new) ≡ part_after m (part_of p) p.worker
        (goes_on m settled p.worker.doing answer) }
    ensures same { (player.new.work ≡ player.old.work) × (player.new.waiting ≡ player.old.waiting)
        × (player.new.noted ≡ player.old.noted) }
    ensures read { let m = S.meaning structure.now in
        result ≡ read_in m (goes_on m settled (doing_of m player.old.worker.name
        player.old.worker.at) answer) }
    ensures ended { HasEnded (S.meaning structure.now) player.new.worker.at }
{
    let end = take(structure, &mut player.worker, settled, answer);
    if let Some(left) = &mut player.left {
        *left = left.saturating_sub(1);
    }
    note_end(player, end)
}
