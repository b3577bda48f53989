//! The three texts of a list, as a page has them.

ghost use Rattle.std.specs.Prelude.{◌≡◌, length, nat_le};
ghost use Rattle.show_page.specs.Texts.{inside, place};

/// How many bytes a text has at most that stands in the page itself.
pub const MOST_INSIDE: u32 = 4_194_304;

/// A puzzle, a list and a certificate, as they are spelled.
#[derive(Clone, Copy)]
pub struct ListTexts<'a> {
    pub puzzle: &'a [u8],
    pub list: &'a [u8],
    pub certificate: &'a [u8],
}

// Whether a text stands in the page itself.
fn is_inside(text: &[u8]) -> bool
    ensures { result ≡ nat_le (length text.now) MOST_INSIDE }
{
    text.len() <= MOST_INSIDE as usize
}

/// The words that say where a text is.
pub fn place_of(text: &[u8]) -> &'static [u8]
    ensures { result.now ≡ place text.now }
{
    if is_inside(text) {
        b"this page"
    } else {
        b"a file beside this page"
    }
}

/// What the page itself has of a text: all of it, or nothing where it is too large for that.
pub fn inside_of(text: &[u8]) -> &[u8]
    ensures { result.now ≡ inside text.now }
{
    if is_inside(text) { text } else { b"" }
}
