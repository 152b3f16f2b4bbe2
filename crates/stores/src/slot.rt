// The number of a header slot: there is one, whichever table it is looked up in.
ghost use Rattle.std.specs.Prelude.{◌≤◌};
ghost use Rattle.paper.specs.Tables.{header_slots};

#[derive(Clone, Copy, PartialEq, Eq, Debug)]
pub struct HeaderSlot {
    pub number: usize,
    pub ghost within: { (1 ≤ number) × (number ≤ header_slots) },
}
