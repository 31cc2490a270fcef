// Pages of a book: the records of a page.
ghost use Rattle.std.specs.Prelude.{◌≡◌};
ghost use Rattle.acb_shown_values.specs.Pages.{page_range};
ghost use Rattle.acb_shown_values.specs.Answer.{told_records};

/// The records of a page of `size` records, of `count` in all: the first, and the one behind the
/// last. No product passes the largest number: a page past the last is found by division.
pub fn page_records(count: usize, size: u16, page: usize) -> Option<(usize, usize)>
    ensures { told_records result ≡ page_range count size page }
{
    let n = size as usize;
    if n != 0 {
        if count / n < page {
            return None;
        }
    }
    let first = page * n;
    if count <= first {
        return None;
    }
    Some((first, first + n.min(count - first)))
}
