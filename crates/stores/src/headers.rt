// The Header Store on a lent header table. A slice with its length in a clause: callers are lent slices, and of a
// `&mut [u8; 2340]` made of one (`as_mut_array`) no proof learns what the slice becomes.
ghost use Rattle.std.specs.Prelude.{◌≡◌, ◌≤◌, ◌<◌, length};
ghost use Rattle.paper.specs.Lists.{lowest};
ghost use Rattle.paper.specs.Tables.{header_free, header_slots, header_at};
ghost use Rattle.paper.specs.Stores.{gone, has_id, read_header, create_header, replace_header, destroy_header, scavenge_headers};
ghost use Rattle.paper.specs.Steps.{done, attempt};
ghost use Rattle.paper.specs.Bytes.{headers_length, hs_from};
ghost use Rattle.records.specs.Fits.{HeaderFits};
ghost use Rattle.stores.specs.Geometry.{of_file, of_slot, of_known};

use crate::allowed;
use crate::slot::HeaderSlot;
use paper::{FileId, Header, Refusal};

const HEADERS: usize = 64;

fn has_id(headers: &[u8], n: usize, time: u32, id: FileId) -> bool
    requires { (length headers.now ≡ headers_length) × (1 ≤ n) × (n ≤ header_slots) }
    ensures { result ≡ has_id time id (header_at (hs_from headers.now) n) }
{
    records::in_use_as(headers, n, id) && records::header_lease(headers, n).is_live(time)
}

// A search goes up to one more than the last number: a range with its end in it asks twice at each turn whether it is over.
pub fn lowest_free_header(headers: &[u8], time: u32) -> Option<usize>
    requires { length headers.now ≡ headers_length }
    ensures { result ≡ lowest (header_free time) (hs_from headers.now).headers }
{
    (1..HEADERS + 1).find(|n| records::header_lease(headers, *n).is_free(time))
}

// A header is found only by an id in use and live at `time`.
pub fn find_header(headers: &[u8], time: u32, id: FileId) -> Option<usize>
    requires { length headers.now ≡ headers_length }
    ensures { result ≡ lowest (has_id time id) (hs_from headers.now).headers }
{
    (1..HEADERS + 1).find(|n| has_id(headers, *n, time, id))
}

// Step: the header's slot number, or NoSuchFile.
pub fn read_header(
    headers: &[u8],
    outcome: u8,
    time: u32,
    id: FileId,
) -> Result<HeaderSlot, Refusal>
    requires { length headers.now ≡ headers_length }
    ensures { done (of_slot result) (hs_from headers.now) ≡ attempt outcome (read_header time id) (hs_from headers.now) }
{
    allowed(outcome)?;
    let Some(n) = find_header(headers, time, id) else {
        return Err(Refusal::NoSuchFile);
    };
    Ok(HeaderSlot { number: n })
}

// Stores the header in the slot under the next id, which is raised in the same step; NoIds where there is none left.
fn store_header(headers: &mut [u8], slot: HeaderSlot, h: Header) -> Result<FileId, Refusal>
    requires { (length headers.old ≡ headers_length) × HeaderFits h }
    ensures { done (of_file result) (hs_from headers.new) ≡ attempt 0 (replace_header slot.number h) (hs_from headers.old) }
{
    let c = records::control(headers);
    if c.next >= 2147483648 {
        return Err(Refusal::NoIds);
    }
    let issued = c.issue();
    let id = issued.id;
    let mut named = h;
    named.id = id;
    records::put_control(headers, issued.control);
    records::put_header(headers, slot.number, named);
    Ok(id)
}

// Step: replacing keeps the slot.
pub fn replace_header(
    headers: &mut [u8],
    outcome: u8,
    slot: HeaderSlot,
    h: Header,
) -> Result<FileId, Refusal>
    requires { (length headers.old ≡ headers_length) × HeaderFits h }
    ensures { done (of_file result) (hs_from headers.new) ≡ attempt outcome (replace_header slot.number h) (hs_from headers.old) }
{
    allowed(outcome)?;
    store_header(headers, slot, h)
}

// Step: a create takes the lowest free slot; NoSpace comes before NoIds.
pub fn create_header(
    headers: &mut [u8],
    outcome: u8,
    time: u32,
    h: Header,
) -> Result<FileId, Refusal>
    requires { (length headers.old ≡ headers_length) × HeaderFits h }
    ensures { done (of_file result) (hs_from headers.new) ≡ attempt outcome (create_header time h) (hs_from headers.old) }
{
    allowed(outcome)?;
    let n = lowest_free_header(headers, time).ok_or(Refusal::NoSpace)?;
    store_header(headers, HeaderSlot { number: n }, h)
}

// Step: zeros over the slot.
pub fn destroy_header(headers: &mut [u8], outcome: u8, slot: usize) -> Result<(), Refusal>
    requires { (length headers.old ≡ headers_length) × (1 ≤ slot) × (slot ≤ header_slots) }
    ensures { done (of_known slot result) (hs_from headers.new) ≡ attempt outcome (destroy_header slot) (hs_from headers.old) }
{
    allowed(outcome)?;
    records::zero_header(headers, slot);
    Ok(())
}

// Zeros over every expired header; how many there were.
// The slots have a loop of their own: one for both would take a trait of a table's leases and zeros, with laws and two impls.
fn sweep_headers(headers: &mut [u8], time: u32) -> u32
    requires { length headers.old ≡ headers_length }
    ensures { gone result (hs_from headers.new) ≡ scavenge_headers time (hs_from headers.old) }
{
    let mut swept = 0;
    for n in 1..=HEADERS {
        if records::header_lease(headers, n).is_expired(time) {
            records::zero_header(headers, n);
            swept += 1;
        }
    }
    swept
}

// Step: the sweep of Scavenge over the header table.
pub fn scavenge_headers(headers: &mut [u8], outcome: u8, time: u32) -> Result<u32, Refusal>
    requires { length headers.old ≡ headers_length }
    ensures { done result (hs_from headers.new) ≡ attempt outcome (scavenge_headers time) (hs_from headers.old) }
{
    allowed(outcome)?;
    Ok(sweep_headers(headers, time))
}
