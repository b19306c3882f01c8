ghost use Rattle.std.specs.Prelude.{◌≡◌, IfOk, map, option_map, reverse};
ghost use Rattle.segments.specs.Views.{answer_of};
ghost use Rattle.replay_spec.specs.Book as spec;
ghost use Rattle.replay_spec.specs.Next.{url_of, answered};
ghost use Rattle.book_redo.specs.InstanceBook.Views.{page_of, pages_of};
ghost use Rattle.record_audit.specs.Runs.{home_of, segments_to, ComesBehind};

use book_redo::books::{InOrder, KeptPage, Numbered};
use instance_cells::Cells;
use page_names::{PageName, url_text};
use plain_rerun::rerun;
use script_nodes::NamedScript;
use script_value::{Str, Value};
use segments::{Answer, Now, Reads, RunResult, Tape};
use server_limits::MOST_FUEL;
use std::alloc::{AllocError, Global};

/// What the segments of an instance have in common: the script, and what the URL of each page tells of the instance.
#[derive(Clone, Copy)]
pub struct Home<'a> {
    pub script: &'a NamedScript,
    pub shelf: u32,
    pub instance: u64,
}

// The page that was answered before this one.
fn parent_of<'a>(
    pages: &'a InOrder<KeptPage>,
    page: &Numbered<KeptPage>,
) -> Option<&'a Numbered<KeptPage>>
    ensures { option_map (λ p. page_of p.now) result
        ≡ spec.parent_of (pages_of pages.now) page.now.item.parent }
{
    pages.page(page.item.parent?)
}

impl Home<'_> {
    // The URL of the page of this number and nonce.
    fn url(&self, alloc: Global, number: u64, nonce: u64) -> Result<Str, AllocError>
        ensures { IfOk result (λ url. url ≡ url_of (home_of self.now) number nonce) }
    {
        let name = PageName {
            shelf: self.shelf,
            instance: self.instance,
            page: number,
            nonce,
        };
        Ok(Str::new(url_text(alloc, &self.script.name, name)?))
    }

    // The segment that showed a page, after the answer that it was shown for.
    fn ran(&self, alloc: Global, page: &Numbered<KeptPage>) -> Result<Answer, AllocError>
        ensures { IfOk result
            (λ ran. answer_of ran ≡ answered (home_of self.now) (page_of page.now)) }
    {
        Ok(Answer {
            value: page.item.answer.value(alloc)?,
            number: page.number,
            url: self.url(alloc, page.number, page.item.nonce)?,
            reads: page.item.reads.values(alloc)?,
        })
    }

    // The segments that showed this page and those before it, the newest first.
    fn newest_first(
        &self,
        alloc: Global,
        pages: &InOrder<KeptPage>,
        page: &Numbered<KeptPage>,
    ) -> Result<Vec<Answer>, AllocError>
        ensures { IfOk result (λ past.
            reverse (map answer_of past.items) ≡ segments_to self.now pages.now page.now) }
    {
        let mut past = Vec::new(alloc);
        let mut next = Some(page);
        for _ in 0..pages.len() {
            let Some(shown) = next else {
                return Ok(past);
            };
            past.push(self.ran(alloc, shown)?)?;
            next = parent_of(pages, shown);
        }
        Ok(past)
    }

    /// The segments that showed the pages from the first one of the instance to this one.
    pub fn past(
        &self,
        alloc: Global,
        pages: &InOrder<KeptPage>,
        page: &Numbered<KeptPage>,
    ) -> Result<Vec<Answer>, AllocError>
        ensures { IfOk result (λ past.
            map answer_of past.items ≡ segments_to self.now pages.now page.now) }
    {
        let mut past = self.newest_first(alloc, pages, page)?;
        past.reverse();
        Ok(past)
    }

    /// What the script comes to after these segments, in one of this number and nonce, after this answer and over these cells. It has
    /// the most fuel that a shelf may have.
    pub fn run<'t>(
        &self,
        alloc: Global,
        past: &'t [Answer],
        answer: &'t Value,
        number: u64,
        nonce: u64,
        cells: &'t Cells,
    ) -> Result<RunResult, AllocError>
        ensures { IfOk result
            (ComesBehind self.now past.now answer.now number nonce cells.now) }
    {
        let url = self.url(alloc, number, nonce)?;
        let tape = Tape {
            past,
            answer,
            newest: Now {
                number,
                url: &url,
                reads: Reads::Present {
                    cells,
                    fuel: MOST_FUEL,
                },
            },
        };
        rerun(alloc, &self.script.script, &tape)
    }
}
