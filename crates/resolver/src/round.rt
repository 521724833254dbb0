// A round: a turn for each block that takes turns and is reached when the round begins, while there is energy left.
// "A round gives turns to the starts reached when it began."
ghost use Rattle.layout.specs.Buffers.{held};
ghost use Rattle.steps.specs.Goings.{under_way, gone};
ghost use Rattle.enter.specs.Lent.{StillLent};
ghost use Rattle.resolver.specs.Turns.{RoundAsks, Rounded};

use crate::turn::turn;
use layout::buffers::Buffers;
use parents::taker::taker_at;
use reachable::is_marked;
use refusal::Shortage;
use steps::Run;
use steps::plan::Plan;

pub fn round(
    code: &[u8],
    buffers: &mut Buffers<'_>,
    plan: &Plan,
    run: &mut Run,
) -> Result<(), Shortage>
    requires { RoundAsks code.now plan.now (held buffers.old) (under_way run.old) }
    ensures lent { StillLent buffers.old buffers.new }
    ensures rounded { Rounded code.now plan.now
        (held buffers.old) (under_way run.old) (held buffers.new) (gone run.new result) }
{
    let by = run.counts.records + 1;
    for left in (0..plan.takers).rev() {
        let rows = &mut *buffers.w;
        let start = taker_at(rows, left);
        if is_marked(rows, plan.size, start, by) {
            if run.energy < plan.limit {
                turn(code, buffers, plan, start, run)?;
            }
        }
    }
    Ok(())
}
