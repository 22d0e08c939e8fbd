/// When graphs are judged, and what is told of it.
#[derive(Clone, Copy, PartialEq, Eq)]
pub enum Judging {
    /// The graph of each transaction is judged, and each line has its verdict line: the command `try`.
    EachLine,
    /// The graph after the last line is judged; before it refused lines alone are told: the command `validate`.
    AtEnd,
}
