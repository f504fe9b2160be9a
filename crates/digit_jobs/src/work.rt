//! How a job runs: documents are made and read, and read again with other digits.

use super::page::Page;
use super::tally::Tally;
use std::alloc::{AllocError, Global};

/// A kind of documents, and how they are read.
pub trait Work {
    /// How often a document is read again with other digits.
    const REVISIONS: u32 = 31;

    /// The first digit that is changed.
    const FIRST: u8 = b'1';

    /// How many digits from there on are changed.
    const TURNED: u8 = 9;

    /// Makes a document.
    fn write(page: &mut Page) -> Result<(), AllocError>;

    /// Reads a document.
    fn read(alloc: Global, text: &[u8], tally: &mut Tally) -> Result<(), AllocError>;
}

/// Reads a document, and then its revisions.
fn read_all<W: Work>(alloc: Global, page: &mut Page, tally: &mut Tally) -> Result<(), AllocError> {
    tally.text(page.text());
    W::read(alloc, page.text(), tally)?;
    for _ in 0..W::REVISIONS {
        page.revise();
        tally.text(page.text());
        W::read(alloc, page.text(), tally)?;
    }
    Ok(())
}

/// Makes and reads as many documents.
pub fn run<W: Work>(alloc: Global, count: u64, seed: u64) -> Result<Tally, AllocError> {
    let mut tally = Tally::new();
    let mut page = Page::new(alloc, seed, W::FIRST, W::TURNED)?;
    for number in 0..count {
        page.begin(seed, number);
        W::write(&mut page)?;
        read_all::<W>(alloc, &mut page, &mut tally)?;
    }
    Ok(tally)
}
