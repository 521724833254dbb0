// The follower: "takes an answer, the code and such a log".
ghost use Rattle.std.specs.Prelude.{◌≡◌, ◌*◌, ◌≤◌, length};
ghost use Rattle.follow.specs.Blocks.{finals_at};
ghost use Rattle.follow.specs.Finding.{slots_of, Ready};
ghost use Rattle.follow.specs.Following.{Answered, FollowedAs};

use crate::find::Finder;
use crate::index::fill;
use crate::room::room_for;
use crate::walk::walk;
use lent::{wipe, wipe_part};
use reader::read;
use refusal::Refusal;

// Follows the log, with `slots` counts.
fn answer(
    map: &[u8],
    code: &[u8],
    log: &[u8],
    work: &mut [u8],
    counts: &mut [u8],
    slots: usize,
) -> usize
    requires ready { Ready map.now }
    requires slots_value { slots ≡ slots_of (finals_at map.now 0) }
    requires slots_in_bounds { 8 * slots ≤ length counts.old }
    ensures { Answered map.now code.now log.now work.old counts.old work.new counts.new result }
{
    wipe_part(counts, 0, 8 * slots);
    wipe(work);
    let rows = fill(map, work);
    let place = walk(Finder { map, work, rows }, code, log, counts);
    wipe(work);
    place
}

// Follows a log of 8-byte program counters through a stored map, and gives the place: the counts go to `counts`, and `work` has an index where it fits.
// "12 as in No. 2; 14, log not a multiple of 8 bytes; 15, count room short; in that order".
pub fn follow(
    map: &[u8],
    code: &[u8],
    log: &[u8],
    work: &mut [u8],
    counts: &mut [u8],
) -> Result<usize, Refusal>
    ensures { FollowedAs map.now code.now log.now work.old counts.old work.new counts.new result }
{
    read(map)?;
    if log.len() % 8 != 0 {
        return Err(Refusal::Log);
    }
    let slots = room_for(map, counts.len() / 8)?;
    Ok(answer(map, code, log, work, counts, slots))
}
