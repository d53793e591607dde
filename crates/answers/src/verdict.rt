/// How a line fares.
#[derive(Clone, Copy, PartialEq, Eq, Debug)]
pub enum Verdict {
    /// It was answered, or it says nothing.
    Answered,
    /// The rules do not have what it asks.
    Refused,
    /// It says nothing that could be done.
    Wrong,
}
