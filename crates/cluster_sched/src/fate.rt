/// What becomes of a call.
#[derive(Clone, Copy, Debug, PartialEq, Eq)]
pub enum Fate {
    /// It is answered.
    Done,
    /// It is lost before it comes to the rows.
    LostBefore,
    /// It comes to the rows, and its answer is lost.
    LostAfter,
    /// A look is answered. A creation fails, and arrives later.
    Late,
}
