// The six lent buffers of a search, in document 01's order, as they travel together.
// "W, P, S, T, R, Q"
#[derive(Drop)]
pub struct Buffers<'a> {
    pub w: &'a mut [u8],
    pub p: &'a mut [u8],
    pub s: &'a mut [u8],
    pub t: &'a mut [u8],
    pub r: &'a mut [u8],
    pub q: &'a mut [u8],
}
