// The follower, exported.
// "Write a follower that takes an answer, the code and such a log (8-byte little-endian numbers), and walks it block by block."
ghost use Rattle.aznifrem.specs.FollowContract.{ExportedFollow};

use crate::told::told_place;
use follow::follow;

// Follows a log through a stored map: 0 and 256 times the place of the first step that is not in the map, or of the log's end; or the refusal's number, with
// 12 also 256 times the offset of the first bad entry (`told`).
pub fn aznifrem_follow(
    map: &[u8],
    code: &[u8],
    log: &[u8],
    work: &mut [u8],
    counts: &mut [u8],
) -> u64
    ensures { ExportedFollow map.now code.now log.now work.old counts.old work.new counts.new result }
{
    told_place(follow(map, code, log, work, counts))
}
