// The path entries of a map, one after the other.
// "accepts each path entry with a destination only if replaying it in the mode the caller names is right"
ghost use Rattle.std.specs.Prelude.{◌≡◌};
ghost use Rattle.exec.specs.Modes.{mode_of};
ghost use Rattle.inspector.specs.Tables.{Tables};
ghost use Rattle.reader.specs.Walks.{Walking};
ghost use Rattle.inspector.specs.Entries.{start_in, shown_by, shown_of, LooksAt};

use crate::path::{Path, judge};
use crate::replay::Replay;
use reader::{Entry, Fault, Step, next};

// What an entry shows, with the start of the block before it: a path with a destination, of the block at `owner`; or the block that 7s behind it are of.
// Neither is the lack of the other, so an Option or a Result would be no plainer.
#[derive(Clone, Copy)]
pub enum Shown {
    Path { owner: usize, path: Path },
    Of(usize),
}

// The first entry that is not right, by its offset and the place in its path, with the offset behind it and the start of the block before that.
#[derive(Clone, Copy)]
pub struct Wrong {
    pub offset: usize,
    pub place: usize,
    pub behind: usize,
    pub owner: usize,
}

// The start of a block; none of another entry.
pub fn start_of(entry: Result<Entry, Fault>) -> Option<usize>
    ensures { result ≡ start_in entry }
{
    match entry {
        Ok(
            Entry::Terminate { start, .. }
            | Entry::Jump { start, .. }
            | Entry::Jumpi { start, .. }
            | Entry::DynamicJump { start, .. }
            | Entry::DynamicJumpi { start, .. },
        ) => Some(start),
        _ => None,
    }
}

// A path of `count` addresses at `at`, of the block at `block`, where it is asked of and has a destination.
// `asked` is a fact that the result depends on, here and in `shown_in`: it chooses no step to run.
fn shown_by(
    asked: bool,
    owner: usize,
    block: usize,
    to: Option<usize>,
    at: usize,
    count: usize,
) -> Shown
    ensures { result ≡ shown_by asked owner block to at count }
{
    match to {
        Some(to) if asked => Shown::Path {
            owner: block,
            path: Path { at, count, to },
        },
        _ => Shown::Of(owner),
    }
}

// What an entry shows; `asked` says that it stands where entries are asked of.
fn shown_in(entry: Result<Entry, Fault>, owner: usize, asked: bool) -> Shown
    ensures { result ≡ shown_of entry owner asked }
{
    match entry {
        Ok(Entry::Way { to, path, count }) => shown_by(asked, owner, owner, to, path, count),
        Ok(
            Entry::Record {
                start,
                to,
                path,
                count,
                ..
            },
        ) => shown_by(asked, owner, start, to, path, count),
        _ => Shown::Of(start_of(entry).unwrap_or(owner)),
    }
}

// Judges those at the offset `from` or later, the walk standing at `start` behind the block at `block`, up to the first that is not right.
pub fn entries(
    replay: Replay,
    w: &mut [u8],
    from: usize,
    start: usize,
    block: usize,
) -> Result<(), Wrong>
    requires walking { Walking replay.map.now start }
    requires tables { Tables replay.map.now replay.code.now w.old }
    ensures { LooksAt (mode_of replay.entry.mode) replay.entry.map.now replay.entry.code.now from start block w.old w.new result }
{
    let mut at = start;
    let mut owner = block;
    while let Some(Step { entry, behind }) = next(replay.map, at) {
        match shown_in(entry, owner, from <= at) {
            Shown::Path { owner: own, path } => {
                if let Err(place) = judge(replay, w, own, path) {
                    return Err(Wrong {
                        offset: at,
                        place,
                        behind,
                        owner,
                    });
                }
            }
            Shown::Of(own) => owner = own,
        }
        at = behind;
    }
    Ok(())
}
