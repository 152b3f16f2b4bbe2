// The requests on tables holding any bytes: each border refuses BadCall, Damaged and ClockBack in that order with every buffer unchanged, and carries out the rest. The parameters stand one by one, as C gives them.
#![tactic(auto, using(std::proofs::lemmas::Bool::Decides::nat_tests, crate::proofs::Admission::serves), unfolding(paper::specs::Requests::well_formed, paper::specs::Answers::lent_page, paper::specs::Requests::page_fits, paper::specs::Service::format, crate::specs::Border::tables_refusal, crate::specs::Border::admission))]

ghost use Rattle.std.specs.Prelude.{◌≡◌, []};
ghost use Rattle.paper.specs.Tables.{standard};
ghost use Rattle.paper.specs.Answers.{Create, Write, Read, Info, Destroy, SetExpiry, Scavenge, report, an_id, facts, counts, no_gift};
ghost use Rattle.paper.specs.Requests.{outcomes_fit, page_fits};
ghost use Rattle.paper.specs.Service.{tables_fit, serve_bytes, format, look, look_slot};
ghost use Rattle.service.specs.Border.{left, tables_refusal, admission};

use paper::{Facts, FileId, PageId, PageNum, Refusal, STANDARD, Swept};

const HEADERS_LENGTH: usize = 2340;

const PAGES_LENGTH: usize = 32768;

// 18 bytes, none above 2; no exit per byte.
fn outcomes_fit(outcomes: &[u8]) -> bool
    ensures { result ≡ outcomes_fit outcomes.now }
{
    outcomes.len() == 18 && outcomes.iter().fold(true, |fit, o| fit & (*o <= 2))
}

fn page_fits(number: PageNum, page: &[u8]) -> bool
    ensures { result ≡ page_fits standard number page.now }
{
    number.0 <= 15 && page.len() == STANDARD.size
}

fn tables_fit(headers: &[u8], pages: &[u8]) -> bool
    ensures { result ≡ tables_fit standard headers.now pages.now }
{
    headers.len() == HEADERS_LENGTH && pages.len() == PAGES_LENGTH
}

// Both tables' lengths, the rules, the clock.
fn admit_tables(headers: &[u8], pages: &[u8], time: u32) -> Result<(), Refusal>
    ensures { result ≡ tables_refusal standard time headers.now pages.now }
{
    if !tables_fit(headers, pages) {
        return Err(Refusal::BadCall);
    }
    if !sound::standard(headers, pages) {
        return Err(Refusal::Damaged);
    }
    if time < records::control(headers).clock {
        Err(Refusal::ClockBack)
    } else {
        Ok(())
    }
}

// What is looked at before all else, but for the page that a request is given.
fn admit(headers: &[u8], pages: &[u8], outcomes: &[u8], time: u32) -> Result<(), Refusal>
    ensures { result ≡ admission standard time outcomes.now headers.now pages.now }
{
    if !outcomes_fit(outcomes) {
        return Err(Refusal::BadCall);
    }
    admit_tables(headers, pages, time)
}

pub fn format(headers: &mut [u8], pages: &mut [u8]) -> Result<(), Refusal>
    ensures { left (report no_gift result) [] headers.new pages.new ≡ format standard headers.old pages.old }
{
    if !tables_fit(headers, pages) {
        return Err(Refusal::BadCall);
    }
    requests::format::format(headers, pages, STANDARD);
    Ok(())
}

pub fn create(
    headers: &mut [u8],
    pages: &mut [u8],
    outcomes: &[u8],
    time: u32,
    client: u16,
    number: PageNum,
    page: &[u8],
    expires: u32,
) -> Result<FileId, Refusal>
    ensures { left (report an_id result) page.now headers.new pages.new ≡ serve_bytes standard time outcomes.now (Create client number page.now expires) headers.old pages.old }
{
    if !page_fits(number, page) {
        return Err(Refusal::BadCall);
    }
    admit(headers, pages, outcomes, time)?;
    requests::create(
        headers, pages, STANDARD, outcomes, time, client, number, page, expires,
    )
}

pub fn write(
    headers: &mut [u8],
    pages: &mut [u8],
    outcomes: &[u8],
    time: u32,
    client: u16,
    id: FileId,
    number: PageNum,
    page: &[u8],
) -> Result<FileId, Refusal>
    ensures { left (report an_id result) page.now headers.new pages.new ≡ serve_bytes standard time outcomes.now (Write client id number page.now) headers.old pages.old }
{
    if !page_fits(number, page) {
        return Err(Refusal::BadCall);
    }
    admit(headers, pages, outcomes, time)?;
    requests::write(
        headers, pages, STANDARD, outcomes, time, client, id, number, page,
    )
}

pub fn read(
    headers: &mut [u8],
    pages: &[u8],
    outcomes: &[u8],
    time: u32,
    id: FileId,
    number: PageNum,
    lent: &mut [u8],
) -> Result<(), Refusal>
    ensures { left (report no_gift result) lent.new headers.new pages.now ≡ serve_bytes standard time outcomes.now (Read id number lent.old) headers.old pages.now }
{
    if !page_fits(number, lent) {
        return Err(Refusal::BadCall);
    }
    admit(headers, pages, outcomes, time)?;
    requests::read(headers, pages, STANDARD, outcomes, time, id, number, lent)
}

pub fn info(
    headers: &mut [u8],
    pages: &[u8],
    outcomes: &[u8],
    time: u32,
    id: FileId,
) -> Result<Facts, Refusal>
    ensures { left (report facts result) [] headers.new pages.now ≡ serve_bytes standard time outcomes.now (Info id) headers.old pages.now }
{
    admit(headers, pages, outcomes, time)?;
    requests::info(headers, pages, STANDARD, outcomes, time, id)
}

pub fn destroy(
    headers: &mut [u8],
    pages: &mut [u8],
    outcomes: &[u8],
    time: u32,
    client: u16,
    id: FileId,
) -> Result<(), Refusal>
    ensures { left (report no_gift result) [] headers.new pages.new ≡ serve_bytes standard time outcomes.now (Destroy client id) headers.old pages.old }
{
    admit(headers, pages, outcomes, time)?;
    requests::destroy(headers, pages, STANDARD, outcomes, time, client, id)
}

pub fn set_expiry(
    headers: &mut [u8],
    pages: &mut [u8],
    outcomes: &[u8],
    time: u32,
    client: u16,
    id: FileId,
    expires: u32,
) -> Result<FileId, Refusal>
    ensures { left (report an_id result) [] headers.new pages.new ≡ serve_bytes standard time outcomes.now (SetExpiry client id expires) headers.old pages.old }
{
    admit(headers, pages, outcomes, time)?;
    requests::set_expiry(
        headers, pages, STANDARD, outcomes, time, client, id, expires,
    )
}

pub fn scavenge(
    headers: &mut [u8],
    pages: &mut [u8],
    outcomes: &[u8],
    time: u32,
) -> Result<Swept, Refusal>
    ensures { left (report counts result) [] headers.new pages.new ≡ serve_bytes standard time outcomes.now Scavenge headers.old pages.old }
{
    admit(headers, pages, outcomes, time)?;
    requests::scavenge(headers, pages, STANDARD, outcomes, time)
}

// A part of the page table, or the caller's blank; it changes nothing.
pub fn look<'a>(
    headers: &[u8],
    pages: &'a [u8],
    time: u32,
    id: FileId,
    number: PageNum,
    blank: &'a [u8],
) -> &'a [u8]
    ensures { result.now ≡ look standard time id number blank.now headers.now pages.now }
{
    if number.0 > 15 || admit_tables(headers, pages, time).is_err() {
        return blank;
    }
    requests::look::look(headers, pages, STANDARD, time, id, number, blank)
}

// Where the page lies that Look answers: its slot, NullPageId for the blank.
pub fn look_slot(headers: &[u8], pages: &[u8], time: u32, id: FileId, number: PageNum) -> PageId
    ensures { result ≡ look_slot standard time id number headers.now pages.now }
{
    if number.0 > 15 || admit_tables(headers, pages, time).is_err() {
        return PageId(0);
    }
    requests::look::named_page(headers, time, id, number)
}
