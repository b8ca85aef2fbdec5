ghost use Rattle.std.specs.Prelude.{◌≡◌};
ghost use Rattle.lines.specs.Texts.{line_of, Holds};
ghost use Rattle.lines.specs.Words.{page_words, refusal_words};

use crate::text::Line;
use rig::Page;
use told::Tells;

// Kept: two numbers and no Ratio, which is in lowest terms: every two numbers make a line.
/// A page's line: entries, the two numbers of the port's ratio, the energy stored at its start and at its end, absorbed, dropped, swing, shortened.
pub fn page_line(num: u32, den: u32, page: Page) -> Line
    ensures { Holds (line_of (page_words num den page)) result }
{
    let mut line = Line::empty();
    line.push_word(page.entries, b' ');
    line.push_word(num, b' ');
    line.push_word(den, b' ');
    line.push_word(page.start, b' ');
    line.push_word(page.end, b' ');
    line.push_word(page.absorbed, b' ');
    line.push_word(page.dropped, b' ');
    line.push_word(page.swing, b' ');
    line.push_word(page.shortened, b'\n');
    line
}

/// A refusal's line: the word `refused`, the layer, the number and the place.
pub fn refusal_line<T: Tells>(refusal: &T) -> Line
    ensures { Holds (line_of (refusal_words (T.says refusal.now))) result }
{
    let told = refusal.told();
    let mut line = Line::empty();
    line.push(b"refused ");
    line.push_word(told.layer, b' ');
    line.push_word(told.number, b' ');
    line.push_word(told.place, b'\n');
    line
}
