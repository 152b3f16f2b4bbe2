// Control, header and slot, read from a table's bytes and written to them in place.
#![tactic(auto)]

ghost use Rattle.std.specs.Prelude.{◌≡◌, ◌+◌, ◌*◌, ◌-◌, ◌≤◌, ◌<◌, ◌^◌, not, ◌&&◌, ◌||◌, leb, ltb, length, take, drop, replicate, ◌++◌};
ghost use Rattle.paper.specs.Stores.{expiring};
ghost use Rattle.bits.specs.Field.{be, field, pack, splice, nines, Within};
ghost use Rattle.paper.specs.Bytes.{control_from, spare_from, control_bytes, header_from, header_bytes, slot_from, slot_bytes, ids_of, bit, is_one};
ghost use Rattle.records.specs.Fits.{HeaderFits, head_of, lease_of, slot_with, in_use_as};

use paper::{Control, FileId, Header, PageId};
use std::ops::Range;

// In use until it expires: what a search for a free or an expired slot looks at.
#[derive(Clone, Copy, PartialEq, Eq, Debug)]
pub struct Lease {
    pub used: bool,
    pub expires: u32,
}

impl Lease {
    pub fn is_free(self, time: u32) -> bool
        ensures { result ≡ not self.used || leb self.expires time }
    {
        !self.used || self.expires <= time
    }

    pub fn is_expired(self, time: u32) -> bool
        ensures { result ≡ self.used && leb self.expires time }
    {
        self.used && self.expires <= time
    }

    pub fn is_live(self, time: u32) -> bool
        ensures { result ≡ self.used && ltb time self.expires }
    {
        self.used && time < self.expires
    }
}

// A page slot without its contents, which stay in the table.
#[derive(Clone, Copy, PartialEq, Eq, Debug)]
pub struct SlotHead {
    pub lease: Lease,
    pub spare: u32,
}

// Header slot n starts at n records from the table's start, since the control record stands first. That it lies within the
// table is a clause of each function: n comes beside the table, and a type of the two would be made anew for each call.
fn record_range(n: usize) -> Range<usize>
    requires { n * 36 + 36 < 2 ^ 64 }
    ensures { (result.start ≡ n * 36) × (result.end ≡ n * 36 + 36) }
{
    let a = n * 36;
    a..a + 36
}

// The record of header slot n, and with 0 the control record.
fn record(headers: &[u8], n: usize) -> &[u8; 36]
    requires { n * 36 + 36 ≤ length headers.now }
    ensures { result.now ≡ take 36 (drop (n * 36) headers.now) }
{
    headers[record_range(n)].as_array().unwrap()
}

pub fn control(headers: &[u8]) -> Control
    requires { 36 ≤ length headers.now }
    ensures { result ≡ control_from (take 36 headers.now) }
{
    let r = record(headers, 0);
    Control {
        next: bits::be32(r, 0),
        clock: bits::be32(r, 4),
    }
}

// The spare bits stay as they are.
pub fn put_control(headers: &mut [u8], c: Control)
    requires { 36 ≤ length headers.old }
    ensures { headers.new ≡ splice 0 (control_bytes c (spare_from (take 36 headers.old))) headers.old }
{
    bits::put32(headers, 0, c.next);
    bits::put32(headers, 4, c.clock);
}

// The sixteen page ids of a header record's own 36 bytes.
fn unpack_pages(r: &[u8; 36]) -> [PageId; 16]
    ensures { result ≡ (header_from r.now).pages }
{
    std::array::from_fn(|k| PageId(bits::nine(r, 18, k)))
}

pub fn header(headers: &[u8], n: usize) -> Header
    requires { n * 36 + 36 ≤ length headers.now }
    ensures { result ≡ header_from (take 36 (drop (n * 36) headers.now)) }
{
    let r = record(headers, n);
    let (used, id) = split_word(r);
    let owner = bits::be16(r, 4);
    let created = bits::be32(r, 6);
    let updated = bits::be32(r, 10);
    let expires = bits::be32(r, 14);
    let pages = unpack_pages(r);
    Header {
        used,
        id: FileId(id),
        owner,
        created,
        updated,
        expires,
        pages,
    }
}

fn numbers(pages: [PageId; 16]) -> [u16; 16]
    ensures { result ≡ ids_of pages }
{
    pages.map(|p| p.0)
}

// In use in the first bit of a record's first word, and the number in the 31 after it.
fn split_word(r: &[u8]) -> (bool, u32)
    requires { 4 ≤ length r.now }
    ensures { (result.0 ≡ is_one (field 0 1 r.now)) × (result.1 ≡ field 1 31 r.now) }
{
    let word = bits::be32(r, 0);
    (word / 2147483648 == 1, word % 2147483648)
}

// And back.
fn first_word(used: bool, n: u32) -> u32
    requires { n < 2147483648 }
    ensures { result ≡ bit used * 2147483648 + n }
{
    u32::from(used) * 2147483648 + n
}

fn pack_name(r: &mut [u8], used: bool, id: FileId, owner: u16)
    requires { (6 ≤ length r.old) × (id.0 < 2147483648) }
    ensures { r.new ≡ splice 0 (be 4 (bit used * 2147483648 + id.0) ++ be 2 owner) r.old }
{
    bits::put32(r, 0, first_word(used, id.0));
    bits::put16(r, 4, owner);
}

fn pack_times(r: &mut [u8], created: u32, updated: u32, expires: u32)
    requires { 18 ≤ length r.old }
    ensures { r.new ≡ splice 6 (be 4 created ++ (be 4 updated ++ be 4 expires)) r.old }
{
    bits::put32(r, 6, created);
    bits::put32(r, 10, updated);
    bits::put32(r, 14, expires);
}

fn pack_pages(r: &mut [u8], pages: [PageId; 16])
    requires { (36 ≤ length r.old) × Within nines (ids_of pages) }
    ensures { r.new ≡ splice 18 (pack nines (ids_of pages)) r.old }
{
    let ids = numbers(pages);
    bits::put_nines(r, 18, &ids);
}

// The record as a slice: as an array, by `as_mut_array().unwrap()`, it would not be known what the table becomes.
fn pack_header(r: &mut [u8], h: Header)
    requires { (length r.old ≡ 36) × HeaderFits h }
    ensures { r.new ≡ header_bytes h }
{
    pack_name(r, h.used, h.id, h.owner);
    pack_times(r, h.created, h.updated, h.expires);
    pack_pages(r, h.pages);
}

pub fn put_header(headers: &mut [u8], n: usize, h: Header)
    requires { (n * 36 + 36 ≤ length headers.old) × HeaderFits h }
    ensures { headers.new ≡ splice (n * 36) (header_bytes h) headers.old }
{
    pack_header(&mut headers[record_range(n)], h);
}

// Slot n of a page table whose slots have `size` bytes of contents; slots are numbered from 1.
fn slot_range(size: usize, n: usize) -> Range<usize>
    requires { (1 ≤ n) × ((n - 1) * (8 + size) + (8 + size) < 2 ^ 64) }
    ensures { (result.start ≡ (n - 1) * (8 + size)) × (result.end ≡ (n - 1) * (8 + size) + (8 + size)) }
{
    let a = (n - 1) * (8 + size);
    a..a + (8 + size)
}

// The head of slot n.
pub fn slot(pages: &[u8], size: usize, n: usize) -> SlotHead
    requires { (1 ≤ n) × ((n - 1) * (8 + size) + (8 + size) ≤ length pages.now) }
    ensures { result ≡ head_of (slot_from (take (8 + size) (drop ((n - 1) * (8 + size)) pages.now))) }
{
    let s = &pages[slot_range(size, n)];
    let r = &s[..8];
    let (used, spare) = split_word(r);
    let expires = bits::be32(r, 4);
    SlotHead {
        lease: Lease { used, expires },
        spare,
    }
}

// The slot's contents where they lie.
pub fn contents(pages: &[u8], size: usize, n: usize) -> &[u8]
    requires { (1 ≤ n) × ((n - 1) * (8 + size) + (8 + size) ≤ length pages.now) }
    ensures { result.now ≡ (slot_from (take (8 + size) (drop ((n - 1) * (8 + size)) pages.now))).contents }
{
    let s = &pages[slot_range(size, n)];
    &s[8..]
}

fn pack_slot(s: &mut [u8], head: SlotHead, page: &[u8])
    requires { (length s.old ≡ 8 + length page.now) × (head.spare < 2147483648) }
    ensures { s.new ≡ slot_bytes (slot_with head page.now) }
{
    bits::put32(s, 0, first_word(head.lease.used, head.spare));
    bits::put32(s, 4, head.lease.expires);
    s[8..].copy_from_slice(page);
}

// All of the slot is written.
pub fn put_slot(pages: &mut [u8], size: usize, n: usize, head: SlotHead, page: &[u8])
    requires le_n { (1 ≤ n) × ((n - 1) * (8 + size) + (8 + size) ≤ length pages.old) }
    requires page_len { (length page.now ≡ size) × (head.spare < 2147483648) }
    ensures { pages.new ≡ splice ((n - 1) * (8 + size)) (slot_bytes (slot_with head page.now)) pages.old }
{
    pack_slot(&mut pages[slot_range(size, n)], head, page);
}

fn renew(s: &mut [u8], expires: u32)
    requires { 8 ≤ length s.old }
    ensures { s.new ≡ slot_bytes (expiring expires (slot_from s.old)) }
{
    bits::put32(s, 4, expires);
}

// Slot n with another expiry.
pub fn put_expires(pages: &mut [u8], size: usize, n: usize, expires: u32)
    requires { (1 ≤ n) × ((n - 1) * (8 + size) + (8 + size) ≤ length pages.old) }
    ensures { pages.new ≡ splice ((n - 1) * (8 + size)) (slot_bytes (expiring expires (slot_from (take (8 + size) (drop ((n - 1) * (8 + size)) pages.old))))) pages.old }
{
    renew(&mut pages[slot_range(size, n)], expires);
}

// Zeros over all of it.
pub fn zero(s: &mut [u8])
    ensures { s.new ≡ replicate (length s.old) 0 }
{
    s.fill(0);
}

// Zeros over slot n.
pub fn zero_slot(pages: &mut [u8], size: usize, n: usize)
    requires { (1 ≤ n) × ((n - 1) * (8 + size) + (8 + size) ≤ length pages.old) }
    ensures { pages.new ≡ splice ((n - 1) * (8 + size)) (replicate (8 + size) 0) pages.old }
{
    zero(&mut pages[slot_range(size, n)]);
}

// Zeros over header slot n.
pub fn zero_header(headers: &mut [u8], n: usize)
    requires { n * 36 + 36 ≤ length headers.old }
    ensures { headers.new ≡ splice (n * 36) (replicate 36 0) headers.old }
{
    zero(&mut headers[record_range(n)]);
}

// The lease of header slot n, without unpacking the rest.
pub fn header_lease(headers: &[u8], n: usize) -> Lease
    requires { n * 36 + 36 ≤ length headers.now }
    ensures { result ≡ lease_of (header_from (take 36 (drop (n * 36) headers.now))) }
{
    let r = record(headers, n);
    let (used, _) = split_word(r);
    Lease {
        used,
        expires: bits::be32(r, 14),
    }
}

// Whether header slot n is in use under this id, all that a search by id asks of most slots.
// By the first word as a whole: taken apart, or its first bit tested alone, it would be loaded byte by byte.
pub fn in_use_as(headers: &[u8], n: usize, id: FileId) -> bool
    requires { n * 36 + 36 ≤ length headers.now }
    ensures { result ≡ in_use_as id (header_from (take 36 (drop (n * 36) headers.now))) }
{
    let r = record(headers, n);
    id.0 < 2147483648 && bits::be32(r, 0) == 2147483648 + id.0
}
