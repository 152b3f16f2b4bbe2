// What C links: each export is `pagefile`'s function of its name, with the same clauses. The archive's name in C is libpagefile.a.
#![tactic(auto)]

ghost use Rattle.std.specs.Prelude.{◌≡◌, []};
ghost use Rattle.paper.specs.Ids.{file_id, page_num};
ghost use Rattle.paper.specs.Tables.{standard};
ghost use Rattle.paper.specs.Answers.{Create, Write, Read, Info, Destroy, SetExpiry, Scavenge, report};
ghost use Rattle.paper.specs.Service.{serve_bytes, format, look_slot};
ghost use Rattle.pagefile.specs.Seen.{seen, seen_by, numbered, answered, told, counted};

use pagefile::{Answered, Counted, Told};

#[unsafe(no_mangle)]
pub extern "C" fn pagefile_format(headers: &mut [u8], pages: &mut [u8]) -> u8
    ensures { seen result [] headers.new pages.new ≡ seen_by numbered (format standard headers.old pages.old) }
{
    pagefile::pagefile_format(headers, pages)
}

#[unsafe(no_mangle)]
pub extern "C" fn pagefile_create(
    headers: &mut [u8],
    pages: &mut [u8],
    outcomes: &[u8],
    time: u32,
    client: u16,
    number: u8,
    page: &[u8],
    expires: u32,
) -> Answered
    ensures { seen result page.now headers.new pages.new ≡ seen_by answered (serve_bytes standard time outcomes.now (Create client (page_num number) page.now expires) headers.old pages.old) }
{
    pagefile::pagefile_create(
        headers, pages, outcomes, time, client, number, page, expires,
    )
}

#[unsafe(no_mangle)]
pub extern "C" fn pagefile_write(
    headers: &mut [u8],
    pages: &mut [u8],
    outcomes: &[u8],
    time: u32,
    client: u16,
    id: u32,
    number: u8,
    page: &[u8],
) -> Answered
    ensures { seen result page.now headers.new pages.new ≡ seen_by answered (serve_bytes standard time outcomes.now (Write client (file_id id) (page_num number) page.now) headers.old pages.old) }
{
    pagefile::pagefile_write(headers, pages, outcomes, time, client, id, number, page)
}

#[unsafe(no_mangle)]
pub extern "C" fn pagefile_read(
    headers: &mut [u8],
    pages: &[u8],
    outcomes: &[u8],
    time: u32,
    id: u32,
    number: u8,
    page: &mut [u8],
) -> Answered
    ensures { seen result page.new headers.new pages.now ≡ seen_by answered (serve_bytes standard time outcomes.now (Read (file_id id) (page_num number) page.old) headers.old pages.now) }
{
    pagefile::pagefile_read(headers, pages, outcomes, time, id, number, page)
}

#[unsafe(no_mangle)]
pub extern "C" fn pagefile_info(
    headers: &mut [u8],
    pages: &[u8],
    outcomes: &[u8],
    time: u32,
    id: u32,
) -> Told
    ensures { seen result [] headers.new pages.now ≡ seen_by told (serve_bytes standard time outcomes.now (Info (file_id id)) headers.old pages.now) }
{
    pagefile::pagefile_info(headers, pages, outcomes, time, id)
}

#[unsafe(no_mangle)]
pub extern "C" fn pagefile_destroy(
    headers: &mut [u8],
    pages: &mut [u8],
    outcomes: &[u8],
    time: u32,
    client: u16,
    id: u32,
) -> Answered
    ensures { seen result [] headers.new pages.new ≡ seen_by answered (serve_bytes standard time outcomes.now (Destroy client (file_id id)) headers.old pages.old) }
{
    pagefile::pagefile_destroy(headers, pages, outcomes, time, client, id)
}

#[unsafe(no_mangle)]
pub extern "C" fn pagefile_set_expiry(
    headers: &mut [u8],
    pages: &mut [u8],
    outcomes: &[u8],
    time: u32,
    client: u16,
    id: u32,
    expires: u32,
) -> Answered
    ensures { seen result [] headers.new pages.new ≡ seen_by answered (serve_bytes standard time outcomes.now (SetExpiry client (file_id id) expires) headers.old pages.old) }
{
    pagefile::pagefile_set_expiry(headers, pages, outcomes, time, client, id, expires)
}

#[unsafe(no_mangle)]
pub extern "C" fn pagefile_scavenge(
    headers: &mut [u8],
    pages: &mut [u8],
    outcomes: &[u8],
    time: u32,
) -> Counted
    ensures { seen result [] headers.new pages.new ≡ seen_by counted (serve_bytes standard time outcomes.now Scavenge headers.old pages.old) }
{
    pagefile::pagefile_scavenge(headers, pages, outcomes, time)
}

// The page's slot, 0 for the blank.
#[unsafe(no_mangle)]
pub extern "C" fn pagefile_look(headers: &[u8], pages: &[u8], time: u32, id: u32, number: u8) -> u16
    ensures { result ≡ (look_slot standard time (file_id id) (page_num number) headers.now pages.now).0 }
{
    pagefile::pagefile_look(headers, pages, time, id, number)
}
