// What a replay goes by: the mode, the code, and a stored map that was accepted.
// "replaying it in the mode the caller names"
ghost use Rattle.std.specs.Prelude.{◌≡◌, ℕ, ◌<◌, get_or};
ghost use Rattle.spec.specs.Reader.{read, holds};
ghost use Rattle.inspector.specs.Edges.{map_in};

use exec::mode::Mode;

// W is lent beside it: in here each contract would have to say that the rest stays.
#[derive(Clone, Copy)]
pub struct Replay<'a> {
    pub mode: Mode,
    pub code: &'a [u8],
    pub map: &'a [u8],
    ghost bytes: { (i : ℕ) → get_or map.now i 0 < 256 },
    ghost held: { read map.now ≡ holds (map_in map.now) },
}
