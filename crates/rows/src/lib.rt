// Rows of steps that several requests share, and the clock. Lengths are clauses, as in `stores` and `requests`.
#![tactic(auto, unfolding(paper::specs::Steps::settle, paper::specs::Steps::pass_over, paper::specs::Steps::follow, paper::specs::Steps::give))]

ghost use Rattle.std.specs.Prelude.{◌≡◌, Bool, true, false, cond, ℕ, ◌+◌, ◌≤◌, List, [], ◌∷◌, length};
ghost use Rattle.paper.specs.Tables.{HS, PS};
ghost use Rattle.paper.specs.Steps.{done, attempt, State, follow, give, settle, pass_over};
ghost use Rattle.paper.specs.Bytes.{headers_length, hs_from, ps_from};
ghost use Rattle.stores.specs.Geometry.{Geometry, of_known, of_slot};
ghost use Rattle.rows.specs.Standing.{standing, named};
ghost use Rattle.rows.specs.Rows.{clocked, opening, deed_on, each_deed};

use paper::{Bank, FileId, PageId, Refusal};
use stores::slot::HeaderSlot;

// What a row does to a page. An enum: of a closure each row would have to be told which step of the definitions it is.
#[derive(Clone, Copy, PartialEq, Eq, Debug)]
pub enum Deed {
    Destroy,
    Expire(u32),
}

// The clock is stored before step 1.
pub fn set_clock(headers: &mut [u8], time: u32)
    requires { length headers.old ≡ headers_length }
    ensures { hs_from headers.new ≡ clocked time (hs_from headers.old) }
{
    let mut c = records::control(headers);
    c.clock = time;
    records::put_control(headers, c);
}

// The clock stored, then step 1 and the owner check: the header's slot.
pub fn open(
    headers: &mut [u8],
    outcomes: &[u8],
    time: u32,
    client: u16,
    id: FileId,
) -> Result<HeaderSlot, Refusal>
    requires { (length headers.old ≡ headers_length) × (length outcomes.now ≡ 18) }
    ensures headers_after { hs_from headers.new ≡ clocked time (hs_from headers.old) }
    ensures steps { (ps : PS) → settle (of_slot result) (standing 1 false (hs_from headers.new) ps) ≡ opening time client id outcomes.now (standing 0 false (hs_from headers.new) ps) }
{
    set_clock(headers, time);
    let slot = stores::headers::read_header(headers, outcomes[0], time, id)?;
    if records::header(headers, slot.number).owner != client {
        return Err(Refusal::NotOwner);
    }
    Ok(slot)
}

// What a row makes of a page's step: a refusal is passed over where `pass` says so, but not a cut.
fn passed_over(step: Result<(), Refusal>, pass: bool) -> Result<(), Refusal>
    ensures { (n : ℕ) (os : List ℕ) (st : State) → settle (of_known 0 result) st ≡ follow (cond pass (pass_over (of_known n step) st) (settle (of_known n step) st)) os (λ m. give 0) }
{
    match step {
        Err(r) if pass && r != Refusal::Cut => Ok(()),
        _ => step,
    }
}

// A page's step: the page destroyed, or its expiry set.
fn deed_step(
    pages: &mut [u8],
    bank: Bank,
    outcome: u8,
    id: PageId,
    deed: Deed,
) -> Result<(), Refusal>
    requires geometry { Geometry bank pages.old }
    requires le_id { (1 ≤ id.0) × (id.0 ≤ bank.slots) }
    ensures { done (of_known id.0 result) (ps_from bank pages.new) ≡ attempt outcome (deed_on bank deed id) (ps_from bank pages.old) }
{
    match deed {
        Deed::Destroy => stores::pages::destroy_page(pages, bank, outcome, id),
        Deed::Expire(e) => stores::pages::set_page_expiry(pages, bank, outcome, id, e),
    }
}

// The deed done to one page, if there is one: page id 0 makes no step. `taken` counts the request's steps: which byte
// of the list is next, and in the contract where the request then stands.
pub fn one_page(
    pages: &mut [u8],
    bank: Bank,
    outcomes: &[u8],
    taken: &mut usize,
    id: PageId,
    deed: Deed,
    pass: bool,
) -> Result<(), Refusal>
    requires geometry { Geometry bank pages.old }
    requires taken_in_bounds { (taken.old + 1 ≤ length outcomes.now) × (id.0 ≤ bank.slots) }
    ensures { (taken.new ≤ taken.old + 1) × ((past : Bool) (hs : HS) → settle (of_known 0 result) (standing taken.new past hs (ps_from bank pages.new)) ≡ each_deed bank deed pass (id ∷ []) outcomes.now (standing taken.old past hs (ps_from bank pages.old))) }
{
    if id.0 == 0 {
        return Ok(());
    }
    let outcome = outcomes[*taken];
    *taken += 1;
    passed_over(deed_step(pages, bank, outcome, id, deed), pass)
}

// The deed done to each page, by rising page number.
pub fn each_page(
    pages: &mut [u8],
    bank: Bank,
    outcomes: &[u8],
    taken: &mut usize,
    ids: [PageId; 16],
    deed: Deed,
    pass: bool,
) -> Result<(), Refusal>
    requires geometry { Geometry bank pages.old }
    requires taken_in_bounds { (taken.old + 16 ≤ length outcomes.now) × (named bank.slots ids ≡ true) }
    ensures { (taken.new ≤ taken.old + 16) × ((past : Bool) (hs : HS) → settle (of_known 0 result) (standing taken.new past hs (ps_from bank pages.new)) ≡ each_deed bank deed pass ids outcomes.now (standing taken.old past hs (ps_from bank pages.old))) }
{
    for id in ids {
        one_page(pages, bank, outcomes, taken, id, deed, pass)?;
    }
    Ok(())
}
