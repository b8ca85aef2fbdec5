mod room;

ghost use Rattle.std.specs.Prelude.{◌≡◌, ◌+◌, ◌<◌, ◌≤◌, [], ◌∷◌, ◌++◌, length};
ghost use Rattle.lines.specs.Rooms.{line_room};
ghost use Rattle.lines.specs.Texts.{text_of, Holds};

use itoa::{Buffer, Integer};
pub use room::{LINE_ROOM, Line};

impl Line {
    /// The line's own bytes, without the zeros behind.
    pub fn text(&self) -> &[u8]
        ensures { result.now ≡ text_of self.now }
    {
        &self.bytes[0..self.len]
    }

    pub(crate) fn empty() -> Line
        ensures { (text_of result ≡ []) × (result.len ≡ 0) }
    {
        Line {
            bytes: [0; LINE_ROOM],
            len: 0,
        }
    }

    // Some bytes more.
    pub(crate) fn push(&mut self, more: &[u8])
        requires { self.old.len + length more.now < line_room }
        ensures text { text_of self.new ≡ text_of self.old ++ more.now }
        ensures len { self.new.len ≡ self.old.len + length more.now }
    {
        let end = self.len + more.len();
        self.bytes[self.len..end].copy_from_slice(more);
        self.len = end;
    }

    // A number in decimal, and a byte behind it.
    pub(crate) fn push_word<I: Integer>(&mut self, n: I, behind: u8)
        requires { self.old.len + (I.MAX_STR_LEN + 1) < line_room }
        ensures text { text_of self.new ≡ text_of self.old ++ (I.text n ++ (behind ∷ [])) }
        ensures len { self.new.len ≤ self.old.len + (I.MAX_STR_LEN + 1) }
    {
        self.push(Buffer::new().format(n).as_bytes());
        self.push(&[behind]);
    }
}
