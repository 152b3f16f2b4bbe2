// Look: a page where it lies in the page table, without steps.
ghost use Rattle.std.specs.Prelude.{◌≡◌, ◌≤◌, length, replicate};
ghost use Rattle.paper.specs.Answers.{Read};
ghost use Rattle.paper.specs.Requests.{carry_out};
ghost use Rattle.paper.specs.Bytes.{headers_length, hs_from, tables_from};
ghost use Rattle.paper.specs.Service.{named_page};
ghost use Rattle.requests.specs.Seen.{SoundTables, looked};

use paper::{Bank, FileId, PageId, PageNum};

// The page id that the live header with this id has at the number; NullPageId where there is none, as the definitions have it.
pub fn named_page(headers: &[u8], time: u32, id: FileId, number: PageNum) -> PageId
    requires headers_len { length headers.now ≡ headers_length }
    requires number_bound { number.0 ≤ 15 }
    ensures { result ≡ named_page time id number (hs_from headers.now) }
{
    let Some(n) = stores::headers::find_header(headers, time, id) else {
        return PageId(0);
    };
    records::header(headers, n).page(number)
}

// The page where Read with an all-zero list would be Success; otherwise the caller's blank, whole.
pub fn look<'a>(
    headers: &[u8],
    pages: &'a [u8],
    bank: Bank,
    time: u32,
    id: FileId,
    number: PageNum,
    blank: &'a [u8],
) -> &'a [u8]
    requires sound_tables { SoundTables bank headers.now pages.now }
    requires number_bound { number.0 ≤ 15 }
    ensures { result.now ≡ looked (carry_out bank time (replicate 18 0) (Read id number (replicate bank.size 0)) (tables_from bank headers.now pages.now)) blank.now }
{
    let p = named_page(headers, time, id, number);
    if p.0 == 0 {
        return blank;
    }
    records::contents(pages, bank.size, usize::from(p.0))
}
