/// What a byte made of the bytes before it.
#[derive(Clone, Copy, Debug, PartialEq, Eq)]
pub enum Step<T> {
    /// The bytes so far begin a longer spelling.
    More,
    /// The bytes so far spell this number, and none may follow.
    Done(T),
    /// No spelling begins with the bytes so far, or the spelling had ended before this byte.
    Bad,
}
