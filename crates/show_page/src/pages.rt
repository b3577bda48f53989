//! The page.

ghost use Rattle.std.specs.Prelude.{◌≡◌, IfOk};
ghost use Rattle.show_page.specs.Holes.{holes_of, holes_with, picture_name};
ghost use Rattle.show_page.specs.Pages.{page_text};
ghost use Rattle.show_page.specs.Texts.{texts_of};

use crate::counts::{PageCounts, counts_of, digits};
use crate::fixed;
use crate::joining::join;
use crate::pictures::PagePictures;
use crate::rows::rows_of;
use crate::texts::{ListTexts, inside_of};
use crate::titles::escape;
use std::alloc::{AllocError, Global};

// What is written into the holes of a page.
#[derive(Clone, Copy)]
struct Fillings<'a> {
    title: &'a [u8],
    counts: &'a [u8],
    picture: &'a [u8],
    picture_name: &'a [u8],
    sheet: &'a [u8],
    rows: &'a [u8],
    answer: &'a [u8],
    puzzle: &'a [u8],
    list: &'a [u8],
    certificate: &'a [u8],
}

/// Writes the page of a list under this title: its fixed text, and in it the title, the counts, the pictures, of each
/// text where it is, its length and its SHA-256, and the texts themselves, as far as they aren't too large for that. It
/// takes time in proportion to what is written and to the length of the texts. An error comes where memory is refused.
///
/// The page says that the list is complete, which the call doesn't look at.
pub fn write_page(
    alloc: Global,
    title: &str,
    texts: &ListTexts<'_>,
    counts: PageCounts,
    pictures: &PagePictures,
) -> Result<Vec<u8>, AllocError>
    ensures { IfOk result (λ page. page.items
        ≡ page_text (holes_of title.now (texts_of texts.now) counts pictures.now.first.items pictures.now.sheet.items)) }
{
    let title = escape(alloc, title)?;
    let rows = rows_of(alloc, texts)?;
    let answer = digits(alloc, counts.listed)?;
    let counted = counts_of(alloc, counts)?;
    let fillings = Fillings {
        title: &title,
        counts: &counted,
        picture: &pictures.first,
        picture_name: name_of(counts.listed),
        sheet: &pictures.sheet,
        rows: &rows,
        answer: &answer,
        puzzle: inside_of(texts.puzzle),
        list: inside_of(texts.list),
        certificate: inside_of(texts.certificate),
    };
    let page = page_with(alloc, &fillings)?;
    Ok(page)
}

// What stands below the first picture.
fn name_of(listed: u64) -> &'static [u8]
    ensures { result.now ≡ picture_name listed }
{
    if listed == 0 {
        b"The puzzle: its board and its tiles"
    } else {
        b"Arrangement 0"
    }
}

// The page with this in its holes.
fn page_with(alloc: Global, fillings: &Fillings<'_>) -> Result<Vec<u8>, AllocError>
    ensures { IfOk result (λ page. page.items ≡ page_text (holes_with fillings.now)) }
{
    join(
        alloc,
        &[
            fixed::BEFORE_TITLE,
            fillings.title,
            fixed::BEFORE_HEADING,
            fillings.title,
            fillings.counts,
            fixed::BEFORE_PICTURE,
            fillings.picture,
            fixed::BEFORE_PICTURE_NAME,
            fillings.picture_name,
            fixed::BEFORE_SHEET,
            fillings.sheet,
            fillings.rows,
            fixed::BEFORE_ANSWER,
            fillings.answer,
            fixed::BEFORE_PUZZLE,
            fillings.puzzle,
            fixed::BEFORE_LIST,
            fillings.list,
            fixed::BEFORE_CERTIFICATE,
            fillings.certificate,
            fixed::LAST,
        ],
    )
}
