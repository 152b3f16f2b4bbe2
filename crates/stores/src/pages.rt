// The Page Store on a lent page table, for any bank. Table and bank stand side by side: `read` and `look` are lent the
// table shared and the others mutably, so that one struct of both would have to be two, each with every clause again.
ghost use Rattle.std.specs.Prelude.{◌≡◌, ◌≤◌, length};
ghost use Rattle.paper.specs.Lists.{lowest};
ghost use Rattle.paper.specs.Tables.{slot_free, slot_at};
ghost use Rattle.paper.specs.Stores.{gone, create_page, read_page, destroy_page, set_page_expiry, scavenge_pages};
ghost use Rattle.paper.specs.Steps.{done, attempt};
ghost use Rattle.paper.specs.Bytes.{ps_from};
ghost use Rattle.stores.specs.Geometry.{Geometry, of_page, of_known, lent_after};

use crate::allowed;
use paper::{Bank, PageId, Refusal};
use records::{Lease, SlotHead};

// Up to one more than the last number, as the header table's searches go.
pub fn lowest_free_slot(pages: &[u8], bank: Bank, time: u32) -> Option<usize>
    requires { Geometry bank pages.now }
    ensures { result ≡ lowest (slot_free time) (ps_from bank pages.now) }
{
    (1..bank.slots + 1).find(|n| records::slot(pages, bank.size, *n).lease.is_free(time))
}

// Step: the page goes to the lowest free slot, which is written whole.
pub fn create_page(
    pages: &mut [u8],
    bank: Bank,
    outcome: u8,
    time: u32,
    expires: u32,
    page: &[u8],
) -> Result<PageId, Refusal>
    requires geometry { Geometry bank pages.old }
    requires page_len { length page.now ≡ bank.size }
    ensures { done (of_page result) (ps_from bank pages.new) ≡ attempt outcome (create_page time page.now expires) (ps_from bank pages.old) }
{
    allowed(outcome)?;
    let n = lowest_free_slot(pages, bank, time).ok_or(Refusal::NoSpace)?;
    let lease = Lease {
        used: true,
        expires,
    };
    let head = SlotHead { lease, spare: 0 };
    records::put_slot(pages, bank.size, n, head, page);
    // By `as`, since it is proved to fit: `try_from` would test it.
    Ok(PageId(n as u16))
}

// Step: zeros over the page's slot.
pub fn destroy_page(pages: &mut [u8], bank: Bank, outcome: u8, id: PageId) -> Result<(), Refusal>
    requires geometry { Geometry bank pages.old }
    requires le_id { (1 ≤ id.0) × (id.0 ≤ bank.slots) }
    ensures { done (of_known id.0 result) (ps_from bank pages.new) ≡ attempt outcome (destroy_page bank id) (ps_from bank pages.old) }
{
    allowed(outcome)?;
    records::zero_slot(pages, bank.size, usize::from(id.0));
    Ok(())
}

// Step: another expiry for the page.
pub fn set_page_expiry(
    pages: &mut [u8],
    bank: Bank,
    outcome: u8,
    id: PageId,
    expires: u32,
) -> Result<(), Refusal>
    requires geometry { Geometry bank pages.old }
    requires le_id { (1 ≤ id.0) × (id.0 ≤ bank.slots) }
    ensures { done (of_known id.0 result) (ps_from bank pages.new) ≡ attempt outcome (set_page_expiry bank expires id) (ps_from bank pages.old) }
{
    allowed(outcome)?;
    records::put_expires(pages, bank.size, usize::from(id.0), expires);
    Ok(())
}

// Step: the page's contents go to the lent page, where the step goes through.
pub fn read_page(
    pages: &[u8],
    bank: Bank,
    outcome: u8,
    id: PageId,
    lent: &mut [u8],
) -> Result<(), Refusal>
    requires geometry { Geometry bank pages.now }
    requires le_id { (1 ≤ id.0) × (id.0 ≤ bank.slots) × (length lent.old ≡ bank.size) }
    ensures step { done (of_known id.0 result) (ps_from bank pages.now) ≡ attempt outcome (read_page id) (ps_from bank pages.now) }
    ensures lent_page { lent.new ≡ lent_after result (slot_at bank (ps_from bank pages.now) id).contents lent.old }
{
    allowed(outcome)?;
    lent.copy_from_slice(records::contents(pages, bank.size, usize::from(id.0)));
    Ok(())
}

// Zeros over every expired slot; how many there were.
fn sweep_slots(pages: &mut [u8], bank: Bank, time: u32) -> u32
    requires { Geometry bank pages.old }
    ensures { gone result (ps_from bank pages.new) ≡ scavenge_pages bank time (ps_from bank pages.old) }
{
    let mut swept = 0;
    for n in 1..=bank.slots {
        if records::slot(pages, bank.size, n).lease.is_expired(time) {
            records::zero_slot(pages, bank.size, n);
            swept += 1;
        }
    }
    swept
}

// Step: the sweep of Scavenge over the page table.
pub fn scavenge_pages(pages: &mut [u8], bank: Bank, outcome: u8, time: u32) -> Result<u32, Refusal>
    requires { Geometry bank pages.old }
    ensures { done result (ps_from bank pages.new) ≡ attempt outcome (scavenge_pages bank time) (ps_from bank pages.old) }
{
    allowed(outcome)?;
    Ok(sweep_slots(pages, bank, time))
}
