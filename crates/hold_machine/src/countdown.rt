//! What fails once, after a number of times.

/// Counts down.
#[derive(Drop)]
pub(crate) struct Countdown {
    left: usize,
}

impl Countdown {
    /// So many times go well.
    pub(crate) fn of(left: usize) -> Countdown {
        Countdown { left }
    }

    /// Whether it fails this time. It does so once.
    pub(crate) fn fails(&mut self) -> bool {
        match self.left.checked_sub(1) {
            Some(left) => {
                self.left = left;
                false
            }
            None => {
                self.left = usize::MAX;
                true
            }
        }
    }
}
