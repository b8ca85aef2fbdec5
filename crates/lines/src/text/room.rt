ghost use Rattle.std.specs.Prelude.{◌≡◌, ◌-◌, ◌<◌, drop, replicate};
ghost use Rattle.lines.specs.Rooms.{line_room};

/// How many bytes a line has room for.
pub const LINE_ROOM: usize = 240;

// Kept: a public line is 240 bytes and a length.
/// A line: its bytes, with zeros behind, and how many there are, fewer than there is room for.
#[derive(Clone, Copy)]
pub struct Line {
    pub bytes: [u8; LINE_ROOM],
    pub len: usize,
    ghost within: { len < line_room },
    ghost blank: { drop len bytes ≡ replicate (line_room - len) 0 },
}
