// What patch answers.

// The position behind the portion, and whether it is the list's end.
#[derive(Clone, Copy)]
pub struct Progress {
    pub position: u64,
    pub done: bool,
}
