/// One of the two areas of bytes that a world has.
#[derive(Clone, Copy, PartialEq, Eq)]
pub enum Area {
    A,
    B,
}
