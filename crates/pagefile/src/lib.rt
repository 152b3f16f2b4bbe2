// The library that C and Rust link, by the exports of `pagefile_c`: each function is the border of its request, with the answer as a struct.
#![tactic(auto)]

ghost use Rattle.std.specs.Prelude.{◌≡◌, []};
ghost use Rattle.paper.specs.Ids.{file_id, page_num};
ghost use Rattle.paper.specs.Tables.{standard};
ghost use Rattle.paper.specs.Answers.{Create, Write, Read, Info, Destroy, SetExpiry, Scavenge, report, an_id, facts, counts, no_gift};
ghost use Rattle.paper.specs.Service.{serve_bytes, format, look_slot};
ghost use Rattle.pagefile.specs.Seen.{seen, seen_by, numbered, answered, told, counted};

use paper::{Facts, FileId, PageNum, Refusal, Swept};

// `pagefile_answer` in C: the number, and on Success the id issued, or 0.
#[repr(C)]
#[derive(Clone, Copy, PartialEq, Eq, Debug)]
pub struct Answered {
    pub number: u8,
    pub id: u32,
}

// `pagefile_facts` in C: the number, and on Success what Info gives.
#[repr(C)]
#[derive(Clone, Copy, PartialEq, Eq, Debug, Default)]
pub struct Told {
    pub number: u8,
    pub owner: u16,
    pub created: u32,
    pub updated: u32,
    pub expires: u32,
}

// `pagefile_swept` in C: the number, and on Success what Scavenge zeroed.
#[repr(C)]
#[derive(Clone, Copy, PartialEq, Eq, Debug, Default)]
pub struct Counted {
    pub number: u8,
    pub headers: u32,
    pub pages: u32,
}

impl From<Result<FileId, Refusal>> for Answered {
    ghost from_gives = { λ a s. s ≡ answered (report an_id a) };

    fn from(a: Result<FileId, Refusal>) -> Answered {
        Answered {
            number: paper::number(&a),
            id: a.map_or(0, |id| id.0),
        }
    }
}

impl From<Result<(), Refusal>> for Answered {
    ghost from_gives = { λ a s. s ≡ answered (report no_gift a) };

    fn from(a: Result<(), Refusal>) -> Answered {
        Answered {
            number: paper::number(&a),
            id: 0,
        }
    }
}

impl From<Result<Facts, Refusal>> for Told {
    ghost from_gives = { λ a s. s ≡ told (report facts a) };

    fn from(a: Result<Facts, Refusal>) -> Told {
        let number = paper::number(&a);
        match a {
            Ok(f) => Told {
                number,
                owner: f.owner,
                created: f.created,
                updated: f.updated,
                expires: f.expires,
            },
            Err(_) => Told {
                number,
                ..Told::default()
            },
        }
    }
}

impl From<Result<Swept, Refusal>> for Counted {
    ghost from_gives = { λ a s. s ≡ counted (report counts a) };

    fn from(a: Result<Swept, Refusal>) -> Counted {
        let number = paper::number(&a);
        match a {
            Ok(c) => Counted {
                number,
                headers: c.headers,
                pages: c.pages,
            },
            Err(_) => Counted {
                number,
                ..Counted::default()
            },
        }
    }
}

pub fn pagefile_format(headers: &mut [u8], pages: &mut [u8]) -> u8
    ensures { seen result [] headers.new pages.new ≡ seen_by numbered (format standard headers.old pages.old) }
{
    paper::number(&service::format(headers, pages))
}

pub fn pagefile_create(
    headers: &mut [u8],
    pages: &mut [u8],
    outcomes: &[u8],
    time: u32,
    client: u16,
    number: u8,
    page: &[u8],
    expires: u32,
) -> Answered
    ensures { seen result page.now headers.new pages.new ≡ seen_by answered (serve_bytes standard time outcomes.now (Create client (page_num number) page.now expires) headers.old pages.old) }
{
    Answered::from(service::create(
        headers,
        pages,
        outcomes,
        time,
        client,
        PageNum(number),
        page,
        expires,
    ))
}

pub fn pagefile_write(
    headers: &mut [u8],
    pages: &mut [u8],
    outcomes: &[u8],
    time: u32,
    client: u16,
    id: u32,
    number: u8,
    page: &[u8],
) -> Answered
    ensures { seen result page.now headers.new pages.new ≡ seen_by answered (serve_bytes standard time outcomes.now (Write client (file_id id) (page_num number) page.now) headers.old pages.old) }
{
    Answered::from(service::write(
        headers,
        pages,
        outcomes,
        time,
        client,
        FileId(id),
        PageNum(number),
        page,
    ))
}

pub fn pagefile_read(
    headers: &mut [u8],
    pages: &[u8],
    outcomes: &[u8],
    time: u32,
    id: u32,
    number: u8,
    page: &mut [u8],
) -> Answered
    ensures { seen result page.new headers.new pages.now ≡ seen_by answered (serve_bytes standard time outcomes.now (Read (file_id id) (page_num number) page.old) headers.old pages.now) }
{
    Answered::from(service::read(
        headers,
        pages,
        outcomes,
        time,
        FileId(id),
        PageNum(number),
        page,
    ))
}

pub fn pagefile_info(headers: &mut [u8], pages: &[u8], outcomes: &[u8], time: u32, id: u32) -> Told
    ensures { seen result [] headers.new pages.now ≡ seen_by told (serve_bytes standard time outcomes.now (Info (file_id id)) headers.old pages.now) }
{
    Told::from(service::info(headers, pages, outcomes, time, FileId(id)))
}

pub fn pagefile_destroy(
    headers: &mut [u8],
    pages: &mut [u8],
    outcomes: &[u8],
    time: u32,
    client: u16,
    id: u32,
) -> Answered
    ensures { seen result [] headers.new pages.new ≡ seen_by answered (serve_bytes standard time outcomes.now (Destroy client (file_id id)) headers.old pages.old) }
{
    Answered::from(service::destroy(headers, pages, outcomes, time, client, FileId(id)))
}

pub fn pagefile_set_expiry(
    headers: &mut [u8],
    pages: &mut [u8],
    outcomes: &[u8],
    time: u32,
    client: u16,
    id: u32,
    expires: u32,
) -> Answered
    ensures { seen result [] headers.new pages.new ≡ seen_by answered (serve_bytes standard time outcomes.now (SetExpiry client (file_id id) expires) headers.old pages.old) }
{
    Answered::from(service::set_expiry(headers, pages, outcomes, time, client, FileId(id), expires))
}

pub fn pagefile_scavenge(
    headers: &mut [u8],
    pages: &mut [u8],
    outcomes: &[u8],
    time: u32,
) -> Counted
    ensures { seen result [] headers.new pages.new ≡ seen_by counted (serve_bytes standard time outcomes.now Scavenge headers.old pages.old) }
{
    Counted::from(service::scavenge(headers, pages, outcomes, time))
}

// The page's slot, 0 for the blank.
pub fn pagefile_look(headers: &[u8], pages: &[u8], time: u32, id: u32, number: u8) -> u16
    ensures { result ≡ (look_slot standard time (file_id id) (page_num number) headers.now pages.now).0 }
{
    service::look_slot(headers, pages, time, FileId(id), PageNum(number)).0
}
