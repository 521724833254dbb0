// The edges of a stored map, as they stand in its bytes.
// "blocks joined by edges of that map"
// `own`, `leads` and `mine` are facts that a result depends on: none chooses a step to run.
ghost use Rattle.std.specs.Prelude.{◌≡◌, [], ◌∷◌};
ghost use Rattle.spec.specs.Lists.{mem};
ghost use Rattle.spec.specs.Search.{dest};
ghost use Rattle.reader.specs.Dests.{found_of};
ghost use Rattle.inspector.specs.Edges.{sight_by, sight_of, Stands, Sought};

use reader::{Entry, Fault, Step, next};

// Three cases of their own, none the lack of another.
// What an entry is to an edge that is looked for: it has the edge, it is of the block that the edge leaves, or of another.
#[derive(Clone, Copy, PartialEq, Eq)]
pub enum Sight {
    Edge,
    Own,
    Other,
}

// Of an entry that is the block's own or not, and leads there or not.
fn sight_by(own: bool, leads: bool) -> Sight
    ensures { result ≡ sight_by own leads }
{
    match (own, leads) {
        (false, _) => Sight::Other,
        (true, true) => Sight::Edge,
        (true, false) => Sight::Own,
    }
}

// Whether a block's one side leads there.
fn one(to: usize, side: usize) -> bool
    ensures { result ≡ mem to (side ∷ []) }
{
    to == side
}

// Whether one of its two sides does.
fn either(to: usize, yes: usize, no: usize) -> bool
    ensures { result ≡ mem to (yes ∷ no ∷ []) }
{
    to == yes || to == no
}

// Whether a 7 does.
fn seven(to: usize, found: Option<usize>) -> bool
    ensures { result ≡ mem to (dest (found_of found)) }
{
    found == Some(to)
}

// What an entry is to the edge between two starts; `mine` says that the block before it is the one that the edge leaves.
fn sight_of(entry: Result<Entry, Fault>, mine: bool, from: usize, to: usize) -> Sight
    ensures { result ≡ sight_of entry mine from to }
{
    match entry {
        Ok(Entry::Terminate { start, .. } | Entry::DynamicJump { start, .. }) => {
            sight_by(from == start, false)
        }
        Ok(
            Entry::Jump {
                start,
                to: side,
                ..
            },
        ) => sight_by(from == start, one(to, side)),
        Ok(Entry::Jumpi { start, yes, no, .. }) => sight_by(from == start, either(to, yes, no)),
        Ok(Entry::DynamicJumpi { start, no, .. }) => sight_by(from == start, one(to, no)),
        Ok(Entry::Way { to: found, .. }) => sight_by(mine, seven(to, found)),
        _ => Sight::Other,
    }
}

// Looks for an edge of the block that stands at an offset, up to the first entry that is not of the block.
pub fn seek(map: &[u8], start: usize, from: usize, to: usize) -> bool
    requires { Stands map.now from start }
    ensures { Sought map.now to from result }
{
    let mut at = start;
    let mut mine = false;
    while let Some(Step { entry, behind }) = next(map, at) {
        match sight_of(entry, mine, from, to) {
            Sight::Edge => return true,
            Sight::Own => {
                mine = true;
                at = behind;
            }
            Sight::Other => return false,
        }
    }
    false
}
