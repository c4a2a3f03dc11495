//! How often a list looks for items that can be taken at once.

ghost use Rattle.std.specs.Prelude.{◌≡◌, ◌==◌};

/// The most items that pass between two looks.
const LONGEST_WAIT: usize = 1023;

/// When to look for items that can be taken at once: after each item that was read, and less and
/// less often while none is found, so that a list without any costs little more.
#[derive(Clone, Copy)]
pub struct Attempts {
    /// How many items pass before the next look.
    left: usize,
    /// How many passed before the last one.
    wait: usize,
}

impl Attempts {
    /// Looks at once.
    #[inline(always)]
    pub fn new() -> Attempts {
        Attempts { left: 0, wait: 0 }
    }

    /// Whether to look now. An item has passed, else.
    #[inline(always)]
    pub fn is_due(&mut self) -> bool {
        if self.left == 0 {
            return true;
        }
        self.left -= 1;
        false
    }

    /// Notes whether a look found an item.
    #[inline(always)]
    pub fn note(&mut self, found: bool) {
        if found {
            self.wait = 0;
        } else if self.wait < LONGEST_WAIT {
            self.wait = 2 * self.wait + 1;
        }
        self.left = self.wait;
    }
}
