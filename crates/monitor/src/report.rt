//! What the monitor prints of a text.
ghost use Rattle.std.specs.Prelude.{◌≡◌, ◌<◌, ◌++◌, length, codes, MatchResult};
ghost use Rattle.framing.specs.Frames.{sound_frames};
ghost use Rattle.monitor.specs.Reports.{report_of, reading_of, Reports, listing, count_line};

use framing::Framer;
use hexadecimal::{BadText, Bytes, Decimal, Line, NoRoom, PAGE_ROOM, Page, Text};

/// What was given: a whole text, or the first 4,096 characters of one that goes on.
#[derive(Clone, Copy)]
pub enum Given<'a> {
    Whole(&'a [u8]),
    Cut(&'a [u8]),
}

/// The page that the monitor prints of it.
#[tactic(auto, using(crate::proofs::Reporting::reports_reading))]
pub fn report(given: Given<'_>) -> Page
    ensures value { result ≡ report_of (reading_of given.entry) }
    ensures reports { Reports given.entry result }
{
    match read(given) {
        Ok(bytes) => frames_page(&bytes),
        Err(bad) => bad_page(bad.position),
    }
}

fn read(given: Given<'_>) -> Result<Bytes, BadText>
    ensures { result ≡ reading_of given.entry }
{
    match given {
        Given::Whole(text) => hexadecimal::read(text),
        Given::Cut(text) => Err(hexadecimal::read_overlong(text)),
    }
}

/// The bytes of a text are so few that the lines of their frames fit a page.
#[tactic(auto, using(crate::proofs::Fitting::listing_fits))]
fn frames_page(bytes: &Bytes) -> Page
    ensures { result ≡ listing (sound_frames bytes.now) }
{
    list_frames(bytes.as_slice()).unwrap()
}

#[tactic(auto, using(crate::proofs::Fitting::position_fits))]
fn bad_page(position: usize) -> Page
    ensures { result ≡ count_line (codes "BAD ") position }
{
    let mut page = Page::blank();
    add_count(&mut page, b"BAD ", position).unwrap();
    page
}

/// A word, a number and LF, behind what stands on the page.
fn add_count(page: &mut Page, word: &[u8], number: usize) -> Result<(), NoRoom>
    ensures { MatchResult result (λ _. page.new ≡ page.old ++ count_line word.now number) (λ _. PAGE_ROOM < length (page.old ++ count_line word.now number)) }
{
    page.add(Text(word))?;
    page.add(Decimal(number))?;
    page.add(Text(b"\n"))
}

/// The frames of a stream, each on a line, and how many there are; or no page where they are too long
/// for one.
fn list_frames(stream: &[u8]) -> Result<Page, NoRoom>
    ensures { MatchResult result (λ page. page ≡ listing (sound_frames stream.now)) (λ _. PAGE_ROOM < length (listing (sound_frames stream.now))) }
{
    let mut page = Page::blank();
    let mut framer = Framer::new();
    let mut frames = 0;
    // a loop and a count, since a frame may find no room
    for byte in stream {
        if framer.take(*byte) {
            page.add(Line(framer.frame()))?;
            frames += 1;
        }
    }
    add_count(&mut page, b"frames ", frames)?;
    Ok(page)
}
