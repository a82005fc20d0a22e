// What reading and printing answer beside a count of bytes.
ghost use Rattle.std.specs.Prelude.{◌≡◌};

use crate::question::NoRoom;

// A read or a write failed, or there was no line to write: this many bytes were read or handed over
// before.
#[derive(Clone, Copy)]
pub struct Failed {
    pub count: usize,
}

impl From<NoRoom> for Failed {
    ghost from_gives = { λ _ failed. failed.count ≡ 0 };

    fn from(_: NoRoom) -> Failed {
        Failed { count: 0 }
    }
}
