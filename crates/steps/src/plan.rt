// What is fixed in a search. It is lent down, since it would be copied by every function that takes it.
// "Added by the port: an energy limit of 0 to 500,000, fixed rooms"
use tables::Rooms;

// The code's length, the end of W's part for runs, how many blocks take turns, the buckets of records and of remembered rows, the energy limit, the rooms, and
// the mode.
#[derive(Clone, Copy)]
pub struct Plan {
    pub size: usize,
    pub end: usize,
    pub takers: usize,
    pub buckets: usize,
    pub shelves: usize,
    pub limit: usize,
    pub rooms: Rooms,
    // The number of the mode, and no `Mode`: `land`, `meet` and `held_state` take any plan, of any number there.
    pub mode: usize,
}
