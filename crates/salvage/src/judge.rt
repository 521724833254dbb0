// Which maps of an archive are copied.
// "copies each that reads whole, drops everything from the start of the first that does not"
ghost use Rattle.std.specs.Prelude.{◌≡◌};
ghost use Rattle.spec.specs.Salvage.{salvage};
ghost use Rattle.salvage.specs.Promises.{judged_of};

use crate::first::first_map;

// How many maps are copied and how many bytes they have, and "the offset of the first bad entry, or the input's length".
#[derive(Clone, Copy)]
pub struct Judged {
    pub maps: usize,
    pub bytes: usize,
    pub offset: usize,
}

// Judges an archive, a map a turn.
pub fn judge(archive: &[u8]) -> Judged
    ensures { result ≡ judged_of (salvage archive.now) }
{
    let mut maps = 0;
    let mut at = 0;
    while at < archive.len() {
        match first_map(&archive[at..]) {
            Ok(long) => {
                maps += 1;
                at += long;
            }
            Err(bad) => {
                return Judged {
                    maps,
                    bytes: at,
                    offset: at + bad.offset,
                };
            }
        }
    }
    Judged {
        maps,
        bytes: at,
        offset: at,
    }
}
