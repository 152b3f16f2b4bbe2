// S1 to S5 over both tables, for any bank; the map of slots seen is lent, as wide as the bank asks, so its width is a clause.
#![tactic(auto)]

ghost use Rattle.std.specs.Prelude.{◌≡◌, true, ◌&&◌, ◌≤◌, length};
ghost use Rattle.paper.specs.Ids.{page_id};
ghost use Rattle.paper.specs.Lists.{all, absent, distinct, is_zero};
ghost use Rattle.paper.specs.Tables.{header_slots, header_at, slot_at, standard};
ghost use Rattle.paper.specs.Sound.{s1, good_header, slot_sound, s3, sound};
ghost use Rattle.paper.specs.Bytes.{headers_length, pages_length, ids_of, hs_from, ps_from, tables_from};
ghost use Rattle.stores.specs.Geometry.{Geometry};
ghost use Rattle.sound.specs.Seen.{Unmarked, marked, held_to, once, passes, seen_after, all_pass, ids_in_use, id_within, told};

use paper::{Bank, Control, Header, PageId, STANDARD};

// A header slot that breaks a rule.
#[derive(Clone, Copy, PartialEq, Eq, Debug)]
struct Broken;

// Whether all bytes are 0; no exit per byte.
fn zeros(s: &[u8]) -> bool
    ensures { result ≡ all is_zero s.now }
{
    s.iter().fold(0, |any, b| any | *b) == 0
}

// S1.
fn control_sound(headers: &[u8]) -> bool
    requires { length headers.now ≡ headers_length }
    ensures { result ≡ s1 (hs_from headers.now) }
{
    let c = records::control(headers);
    c.next != 0 && c.next <= 2147483648 && zeros(&headers[8..36])
}

// A slot in use has 80 00 00 00 for its first word; any other is sound where it is all zero.
fn slot_sound(pages: &[u8], bank: Bank, n: usize) -> bool
    requires geometry { Geometry bank pages.now }
    requires le_n { (1 ≤ n) × (n ≤ bank.slots) }
    ensures { result ≡ slot_sound (slot_at bank (ps_from bank pages.now) (page_id n)) }
{
    let a = (n - 1) * (8 + bank.size);
    let e = a + (8 + bank.size);
    let s = &pages[a..e];
    bits::be32(s, 0) == 2147483648 || zeros(s)
}

// S3. An inclusive range takes six instructions more for each slot.
fn slots_sound(pages: &[u8], bank: Bank) -> bool
    requires { Geometry bank pages.now }
    ensures { result ≡ s3 (ps_from bank pages.now) }
{
    (1..bank.slots + 1).all(|n| slot_sound(pages, bank, n))
}

// Whether x is none of the ids; no exit per id. With a `fold` the whole check of full tables takes 0.6 % more instructions.
fn absent(ids: &[u32], x: u32) -> bool
    ensures { result ≡ absent x ids.now }
{
    let mut met = false;
    for id in ids {
        met |= x == *id;
    }
    !met
}

// No id stands twice.
fn all_distinct(ids: &[u32]) -> bool
    ensures { result ≡ distinct ids.now }
{
    let mut rest = ids;
    while let Some((id, others)) = rest.split_first() {
        if !absent(others, *id) {
            return false;
        }
        rest = others;
    }
    true
}

// No page id is above the bank's last; no exit per id.
fn ids_within(ids: [PageId; 16], bank: Bank) -> bool
    ensures { result ≡ all (id_within bank.slots) ids }
{
    ids.iter().fold(true, |within, p| within & (usize::from(p.0) <= bank.slots))
}

// S2 for a header in use, without the ids of the others.
fn good_header(h: Header, c: Control, bank: Bank) -> bool
    ensures { result ≡ good_header bank c h }
{
    (1 <= h.id.0)
        & (h.id.0 < c.next)
        & (h.created <= h.updated)
        & (h.updated <= c.clock)
        & (h.updated <= h.expires)
        & ids_within(h.pages, bank)
}

// S4 for one page id but 0: its slot is in use and lasts as long as the header.
fn page_held(pages: &[u8], bank: Bank, n: usize, expires: u32) -> bool
    requires geometry { Geometry bank pages.now }
    requires le_n { (1 ≤ n) × (n ≤ bank.slots) }
    ensures { result ≡ held_to bank (ps_from bank pages.now) expires (page_id n) }
{
    let s = records::slot(pages, bank.size, n);
    s.lease.used & (expires <= s.lease.expires)
}

// S4 and S5 for some of a live header's page ids; no exit per id.
fn held_each(pages: &[u8], bank: Bank, ids: &[PageId], expires: u32, seen: &mut [bool]) -> bool
    requires geometry { Geometry bank pages.now }
    requires slots_in_bounds { (bank.slots ≤ length seen.old) × (all (id_within bank.slots) ids.now ≡ true) }
    ensures value { result ≡ once (held_to bank (ps_from bank pages.now) expires) seen.old ids.now }
    ensures marks { seen.new ≡ marked seen.old (ids_of ids.now) }
{
    let mut good = true;
    for p in ids {
        let n = usize::from(p.0);
        if n != 0 {
            let held = page_held(pages, bank, n, expires);
            good = good & held & !seen[n - 1];
            seen[n - 1] = true;
        }
    }
    good
}

// S4 and S5 for a live header: each page id but 0 is held and not seen before, and is marked; in halves, as eight turns compile to no loop.
fn held_once(pages: &[u8], bank: Bank, ids: [PageId; 16], expires: u32, seen: &mut [bool]) -> bool
    requires geometry { Geometry bank pages.now }
    requires slots_in_bounds { (bank.slots ≤ length seen.old) × (all (id_within bank.slots) ids ≡ true) }
    ensures value { result ≡ once (held_to bank (ps_from bank pages.now) expires) seen.old ids }
    ensures marks { seen.new ≡ marked seen.old (ids_of ids) }
{
    let first = held_each(pages, bank, &ids[..8], expires, seen);
    let second = held_each(pages, bank, &ids[8..], expires, seen);
    first & second
}

// A header in use.
fn named_sound(
    headers: &[u8],
    n: usize,
    c: Control,
    pages: &[u8],
    bank: Bank,
    seen: &mut [bool],
) -> Result<Option<u32>, Broken>
    requires headers_len { (length headers.now ≡ headers_length) × (1 ≤ n) × (n ≤ header_slots) }
    requires geometry { Geometry bank pages.now }
    requires slots_in_bounds { bank.slots ≤ length seen.old }
    requires in_use { (header_at (hs_from headers.now) n).used ≡ true }
    ensures value { result ≡ told (passes bank c (ps_from bank pages.now) seen.old (header_at (hs_from headers.now) n)) (header_at (hs_from headers.now) n) }
    ensures marks { seen.new ≡ seen_after bank c seen.old (header_at (hs_from headers.now) n) }
{
    let h = records::header(headers, n);
    if !good_header(h, c, bank) {
        return Err(Broken);
    }
    if c.clock < h.expires && !held_once(pages, bank, h.pages, h.expires, seen) {
        return Err(Broken);
    }
    Ok(Some(h.id.0))
}

// A header slot whose first word is below 2^31 is not in use.
fn header_sound(
    headers: &[u8],
    n: usize,
    c: Control,
    pages: &[u8],
    bank: Bank,
    seen: &mut [bool],
) -> Result<Option<u32>, Broken>
    requires headers_len { (length headers.now ≡ headers_length) × (1 ≤ n) × (n ≤ header_slots) }
    requires geometry { Geometry bank pages.now }
    requires slots_in_bounds { bank.slots ≤ length seen.old }
    ensures value { result ≡ told (passes bank c (ps_from bank pages.now) seen.old (header_at (hs_from headers.now) n)) (header_at (hs_from headers.now) n) }
    ensures marks { seen.new ≡ seen_after bank c seen.old (header_at (hs_from headers.now) n) }
{
    let a = n * 36;
    let e = a + 36;
    let r = &headers[a..e];
    if bits::be32(r, 0) < 2147483648 {
        return if zeros(r) { Ok(None) } else { Err(Broken) };
    }
    named_sound(headers, n, c, pages, bank, seen)
}

// S2, S4 and S5: the ids in use are gathered before they are compared, in an array with their count, as there is no heap.
fn headers_sound(headers: &[u8], c: Control, pages: &[u8], bank: Bank, seen: &mut [bool]) -> bool
    requires headers_len { length headers.now ≡ headers_length }
    requires geometry { Geometry bank pages.now }
    requires slots_in_bounds { bank.slots ≤ length seen.old }
    ensures { result ≡ all_pass bank c (ps_from bank pages.now) seen.old (hs_from headers.now).headers && distinct (ids_in_use (hs_from headers.now).headers) }
{
    let mut ids = [0u32; 64];
    let mut count = 0;
    for n in 1..=64 {
        let Ok(named) = header_sound(headers, n, c, pages, bank, seen) else {
            return false;
        };
        if let Some(id) = named {
            ids[count] = id;
            count += 1;
        }
    }
    all_distinct(&ids[..count])
}

// S1 to S5 for any bank, over a map of page slots seen that is filled while the headers are walked.
pub fn tables_sound(headers: &[u8], pages: &[u8], bank: Bank, seen: &mut [bool]) -> bool
    requires headers_len { length headers.now ≡ headers_length }
    requires geometry { Geometry bank pages.now }
    requires unmarked { Unmarked bank.slots seen.old }
    ensures { result ≡ sound bank (tables_from bank headers.now pages.now) }
{
    control_sound(headers)
        && slots_sound(pages, bank)
        && headers_sound(headers, records::control(headers), pages, bank, seen)
}

// S1 to S5 for the bank of document 01.
pub fn standard(headers: &[u8], pages: &[u8]) -> bool
    requires { (length headers.now ≡ headers_length) × (length pages.now ≡ pages_length standard) }
    ensures { result ≡ sound standard (tables_from standard headers.now pages.now) }
{
    let mut seen = [false; 256];
    tables_sound(headers, pages, STANDARD, &mut seen)
}
