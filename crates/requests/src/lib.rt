// Each request carried out on sound tables. What any bytes can break is checked by `service`; a caller that holds sound tables calls these.
// Lengths and ranges are clauses and not types, since a type would ask callers for more than the slices that they are lent; and
// the parameters stand one by one, as the calls from C have them.
#![tactic(auto)]

pub mod format;
pub mod look;

ghost use Rattle.std.specs.Prelude.{◌≡◌, false, ◌≤◌, [], length};
ghost use Rattle.paper.specs.Tables.{header_at};
ghost use Rattle.paper.specs.Answers.{Create, Write, Read, Info, Destroy, SetExpiry, Scavenge, report, an_id, facts, counts, no_gift};
ghost use Rattle.paper.specs.Requests.{reply_of, carry_out};
ghost use Rattle.paper.specs.Bytes.{hs_from, ps_from, tables_from};
ghost use Rattle.requests.specs.Seen.{SoundTables, Opened, shown, shows};
ghost use Rattle.rows.specs.Standing.{standing};
ghost use Rattle.requests.specs.Tails.{writing, issuing, lengthening, shortening};

use paper::{Bank, Facts, FileId, Header, PageNum, Refusal, Swept};
use rows::Deed;
use stores::slot::HeaderSlot;

// 1 create page; 2 create header.
pub fn create(
    headers: &mut [u8],
    pages: &mut [u8],
    bank: Bank,
    outcomes: &[u8],
    time: u32,
    client: u16,
    number: PageNum,
    page: &[u8],
    expires: u32,
) -> Result<FileId, Refusal>
    requires sound_tables { SoundTables bank headers.old pages.old }
    requires outcomes_len { (length outcomes.now ≡ 18) × (length page.now ≡ bank.size) × (number.0 ≤ 15) }
    ensures { shows (report an_id result) page.now (tables_from bank headers.new pages.new) ≡ shown (carry_out bank time outcomes.now (Create client number page.now expires) (tables_from bank headers.old pages.old)) }
{
    rows::set_clock(headers, time);
    let e = expires.max(time);
    let p = stores::pages::create_page(pages, bank, outcomes[0], time, e, page)?;
    let h = Header::new(time, client, e).with_page(time, number, p);
    stores::headers::create_header(headers, outcomes[1], time, h)
}

// Write from step 2 on, with the header in the slot: 2 create page with the header's expiry; 3 replace header, updated; 4 destroy the former page, if any.
fn write_opened(
    headers: &mut [u8],
    pages: &mut [u8],
    bank: Bank,
    outcomes: &[u8],
    time: u32,
    slot: HeaderSlot,
    number: PageNum,
    page: &[u8],
) -> Result<FileId, Refusal>
    requires opened { Opened bank slot headers.old pages.old outcomes.now }
    requires page_len { (length page.now ≡ bank.size) × (number.0 ≤ 15) }
    ensures { shows (report an_id result) page.now (tables_from bank headers.new pages.new) ≡ shown (reply_of page.now (writing bank time slot.number (header_at (hs_from headers.old) slot.number) number page.now outcomes.now (standing 1 false (hs_from headers.old) (ps_from bank pages.old)))) }
{
    let h = records::header(headers, slot.number);
    let p = stores::pages::create_page(pages, bank, outcomes[1], time, h.expires, page)?;
    let g = h.with_page(time, number, p);
    let id = stores::headers::replace_header(headers, outcomes[2], slot, g)?;
    let mut taken = 3;
    let former = h.page(number);
    rows::one_page(
        pages,
        bank,
        outcomes,
        &mut taken,
        former,
        Deed::Destroy,
        true,
    )?;
    Ok(id)
}

// 1 read header; owner check; 2 create page; 3 replace header; 4 destroy the former page, if any.
pub fn write(
    headers: &mut [u8],
    pages: &mut [u8],
    bank: Bank,
    outcomes: &[u8],
    time: u32,
    client: u16,
    id: FileId,
    number: PageNum,
    page: &[u8],
) -> Result<FileId, Refusal>
    requires sound_tables { SoundTables bank headers.old pages.old }
    requires outcomes_len { (length outcomes.now ≡ 18) × (length page.now ≡ bank.size) × (number.0 ≤ 15) }
    ensures { shows (report an_id result) page.now (tables_from bank headers.new pages.new) ≡ shown (carry_out bank time outcomes.now (Write client id number page.now) (tables_from bank headers.old pages.old)) }
{
    let slot = rows::open(headers, outcomes, time, client, id)?;
    write_opened(headers, pages, bank, outcomes, time, slot, number, page)
}

// 1 read header; page check; 2 read page into the lent page.
pub fn read(
    headers: &mut [u8],
    pages: &[u8],
    bank: Bank,
    outcomes: &[u8],
    time: u32,
    id: FileId,
    number: PageNum,
    lent: &mut [u8],
) -> Result<(), Refusal>
    requires sound_tables { SoundTables bank headers.old pages.now }
    requires outcomes_len { (length outcomes.now ≡ 18) × (length lent.old ≡ bank.size) × (number.0 ≤ 15) }
    ensures { shows (report no_gift result) lent.new (tables_from bank headers.new pages.now) ≡ shown (carry_out bank time outcomes.now (Read id number lent.old) (tables_from bank headers.old pages.now)) }
{
    rows::set_clock(headers, time);
    let slot = stores::headers::read_header(headers, outcomes[0], time, id)?;
    let p = records::header(headers, slot.number).page(number);
    if p.0 == 0 {
        return Err(Refusal::NoSuchPage);
    }
    stores::pages::read_page(pages, bank, outcomes[1], p, lent)
}

// 1 read header; gives owner, created, updated, expires.
pub fn info(
    headers: &mut [u8],
    pages: &[u8],
    bank: Bank,
    outcomes: &[u8],
    time: u32,
    id: FileId,
) -> Result<Facts, Refusal>
    requires sound_tables { SoundTables bank headers.old pages.now }
    requires outcomes_len { length outcomes.now ≡ 18 }
    ensures { shows (report facts result) [] (tables_from bank headers.new pages.now) ≡ shown (carry_out bank time outcomes.now (Info id) (tables_from bank headers.old pages.now)) }
{
    rows::set_clock(headers, time);
    let slot = stores::headers::read_header(headers, outcomes[0], time, id)?;
    Ok(Facts::from(records::header(headers, slot.number)))
}

// 1 read header; owner check; 2 destroy header; then destroy each page, by rising page number.
pub fn destroy(
    headers: &mut [u8],
    pages: &mut [u8],
    bank: Bank,
    outcomes: &[u8],
    time: u32,
    client: u16,
    id: FileId,
) -> Result<(), Refusal>
    requires sound_tables { SoundTables bank headers.old pages.old }
    requires outcomes_len { length outcomes.now ≡ 18 }
    ensures { shows (report no_gift result) [] (tables_from bank headers.new pages.new) ≡ shown (carry_out bank time outcomes.now (Destroy client id) (tables_from bank headers.old pages.old)) }
{
    let slot = rows::open(headers, outcomes, time, client, id)?;
    let h = records::header(headers, slot.number);
    stores::headers::destroy_header(headers, outcomes[1], slot.number)?;
    let mut taken = 2;
    rows::each_page(
        pages,
        bank,
        outcomes,
        &mut taken,
        h.pages,
        Deed::Destroy,
        true,
    )
}

// SetExpiry from step 2 on where the life is made longer: each page's expiry set, by rising number, then the header replaced.
fn lengthen(
    headers: &mut [u8],
    pages: &mut [u8],
    bank: Bank,
    outcomes: &[u8],
    time: u32,
    slot: HeaderSlot,
    expires: u32,
) -> Result<FileId, Refusal>
    requires { Opened bank slot headers.old pages.old outcomes.now }
    ensures { shows (report an_id result) [] (tables_from bank headers.new pages.new) ≡ shown (reply_of [] (issuing (lengthening bank time expires slot.number (header_at (hs_from headers.old) slot.number)) outcomes.now (standing 1 false (hs_from headers.old) (ps_from bank pages.old)))) }
{
    let h = records::header(headers, slot.number);
    let mut taken = 1;
    let deed = Deed::Expire(expires);
    rows::each_page(pages, bank, outcomes, &mut taken, h.pages, deed, false)?;
    let g = h.with_expiry(time, expires);
    stores::headers::replace_header(headers, outcomes[taken], slot, g)
}

// SetExpiry from step 2 on where the life is made shorter: the header replaced, then each page's expiry set.
fn shorten(
    headers: &mut [u8],
    pages: &mut [u8],
    bank: Bank,
    outcomes: &[u8],
    time: u32,
    slot: HeaderSlot,
    expires: u32,
) -> Result<FileId, Refusal>
    requires { Opened bank slot headers.old pages.old outcomes.now }
    ensures { shows (report an_id result) [] (tables_from bank headers.new pages.new) ≡ shown (reply_of [] (issuing (shortening bank time expires slot.number (header_at (hs_from headers.old) slot.number)) outcomes.now (standing 1 false (hs_from headers.old) (ps_from bank pages.old)))) }
{
    let h = records::header(headers, slot.number);
    let g = h.with_expiry(time, expires);
    let id = stores::headers::replace_header(headers, outcomes[1], slot, g)?;
    let mut taken = 2;
    let deed = Deed::Expire(expires);
    rows::each_page(pages, bank, outcomes, &mut taken, h.pages, deed, true)?;
    Ok(id)
}

// 1 read header; owner check; then the pages before the header where the expiry is at least the old one, or after it.
pub fn set_expiry(
    headers: &mut [u8],
    pages: &mut [u8],
    bank: Bank,
    outcomes: &[u8],
    time: u32,
    client: u16,
    id: FileId,
    expires: u32,
) -> Result<FileId, Refusal>
    requires sound_tables { SoundTables bank headers.old pages.old }
    requires outcomes_len { length outcomes.now ≡ 18 }
    ensures { shows (report an_id result) [] (tables_from bank headers.new pages.new) ≡ shown (carry_out bank time outcomes.now (SetExpiry client id expires) (tables_from bank headers.old pages.old)) }
{
    let slot = rows::open(headers, outcomes, time, client, id)?;
    let e = expires.max(time);
    if records::header(headers, slot.number).expires <= e {
        lengthen(headers, pages, bank, outcomes, time, slot, e)
    } else {
        shorten(headers, pages, bank, outcomes, time, slot, e)
    }
}

// 1 and 2: both sweeps, with their counts.
pub fn scavenge(
    headers: &mut [u8],
    pages: &mut [u8],
    bank: Bank,
    outcomes: &[u8],
    time: u32,
) -> Result<Swept, Refusal>
    requires sound_tables { SoundTables bank headers.old pages.old }
    requires outcomes_len { length outcomes.now ≡ 18 }
    ensures { shows (report counts result) [] (tables_from bank headers.new pages.new) ≡ shown (carry_out bank time outcomes.now Scavenge (tables_from bank headers.old pages.old)) }
{
    rows::set_clock(headers, time);
    let swept = stores::headers::scavenge_headers(headers, outcomes[0], time)?;
    let freed = stores::pages::scavenge_pages(pages, bank, outcomes[1], time)?;
    Ok(Swept {
        headers: swept,
        pages: freed,
    })
}
