//! What the lists take of the tables.

ghost use Rattle.std.specs.Prelude.{◌≡◌, ◌≤◌};
ghost use Rattle.monitor_model.specs.Offsets.{record_mask, record_reads};

use machine_protection::region::Region;

/// Counts, addresses and words of regions that the lists take of the tables.
#[derive(Clone, Copy)]
pub struct Numbers {
    /// How many slots each compartment has.
    pub slots: u8,
    /// The monitor's block.
    pub block: u32,
    /// Its loans.
    pub loans_at: u32,
    /// The address behind it.
    pub block_end: u32,
    /// The stack.
    pub stack: u32,
    /// The address behind it.
    pub stack_end: u32,
    /// The exponent of an eighth of its size.
    pub eighth: u32,
    /// The records of compartments.
    pub compartments_at: u32,
    /// The records of sites.
    pub sites_at: u32,
    /// How many sites there are.
    pub sites: u32,
    /// The records of targets.
    pub targets_at: u32,
    /// The sizes of lendable locals.
    pub lends_at: u32,
    /// How many lendable locals there are.
    pub lends: u32,
    /// The records of ranges with initial words.
    pub inits_at: u32,
    /// How many such ranges there are.
    pub inits: u32,
    /// How many initial words there are.
    pub words: u32,
    /// Region 0.
    pub background: Region,
    /// Region 1.
    pub tables: Region,
    /// Region 3 with all eighths open.
    pub stack_region: Region,
    /// The entry of `main`, with bit 0 set.
    pub main: u32,
    /// Its compartment.
    pub main_compartment: u32,
    /// The address of the leave stub, with bit 0 set.
    pub stub_entry: u32,
    /// Whether loads are refused too.
    pub closed: bool,
    /// The lists have room for 12 slots.
    pub ghost few_slots: { slots ≤ 12 },
}

impl Numbers {
    /// The place of a compartment's mask in its record, in words.
    pub fn record_mask(&self) -> u8
        ensures { result ≡ record_mask self.now.slots }
    {
        2 * self.slots + 2
    }

    /// The place of a compartment's read mask in its record, in words.
    pub fn record_reads(&self) -> u8
        ensures { result ≡ record_reads self.now.slots }
    {
        2 * self.slots + 3
    }
}
