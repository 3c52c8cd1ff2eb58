//! A board of three compartments, of which `main`'s code is a case's own.

ghost use Rattle.std.specs.Prelude.{◌≡◌, ◌≤◌, IfOk, length};
ghost use Rattle.machine_devices.specs.Rules.{ObeysRules};

use base_lists::ListVec;
use base_words::memory::write_words;
use machine_devices::image::Image;
use machine_devices::tape::Tape;
use machine_emulator::Machine;
use machine_protection::region::Region;
use monitor_code::page::page;
use monitor_model::tables::{CompRecord, SiteRecord, Tables, TargetRecord};
use plan_model::Spot;
use std::alloc::{AllocError, Global};

/// The monitor's block stands behind the stack.
pub(crate) const MONITOR: u32 = 0x2000_0800;

/// Slots that hold nothing, behind the first.
const FREE: [Region; 3] = [
    Region {
        rbar: 0x15,
        rasr: 0,
    },
    Region {
        rbar: 0x16,
        rasr: 0,
    },
    Region {
        rbar: 0x17,
        rasr: 0,
    },
];

/// A compartment by its code, its first slot, and both masks.
fn compartment(
    alloc: Global,
    code: Region,
    first: Region,
    mask: u32,
    reads: u32,
) -> Result<CompRecord, AllocError> {
    let slots = vec![in alloc; first, FREE[0], FREE[1], FREE[2]]?;
    Ok(CompRecord {
        code,
        slots: ListVec::new(slots),
        mask,
        reads,
    })
}

/// `main`'s compartment; one that may reach lendable local 0; and one that may reach nothing.
fn compartments(alloc: Global, closed: bool) -> Result<Vec<CompRecord>, AllocError> {
    let timer = Region {
        rbar: 0x4001_0014,
        rasr: 0x1301_0013,
    };
    let none = Region {
        rbar: 0x14,
        rasr: 0,
    };
    let main = Region {
        rbar: 0x0800_2012,
        rasr: 0x0602_000d,
    };
    let second = Region {
        rbar: 0x0800_2092,
        rasr: 0x0602_0009,
    };
    let third = Region {
        rbar: 0x0800_20b2,
        rasr: 0x0602_0009,
    };
    let mut all = Vec::new(alloc);
    all.push(compartment(alloc, main, timer, 0, 0)?)?;
    all.push(compartment(alloc, second, none, 1, u32::from(closed))?)?;
    all.push(compartment(alloc, third, none, 0, 0)?)?;
    Ok(all)
}

/// Five sites in `main`'s code. The second calls the third compartment, the others the second.
const SITES: [SiteRecord; 5] = [
    SiteRecord {
        ret: 0x0800_2016,
        first: 0,
        count: 1,
    },
    SiteRecord {
        ret: 0x0800_201a,
        first: 1,
        count: 1,
    },
    SiteRecord {
        ret: 0x0800_201e,
        first: 0,
        count: 1,
    },
    SiteRecord {
        ret: 0x0800_2028,
        first: 0,
        count: 1,
    },
    SiteRecord {
        ret: 0x0800_202c,
        first: 0,
        count: 1,
    },
];

const TARGETS: [TargetRecord; 2] = [
    TargetRecord {
        entry: 0x0800_2081,
        compartment: 1,
    },
    TargetRecord {
        entry: 0x0800_20a1,
        compartment: 2,
    },
];

fn tables(alloc: Global, closed: bool) -> Result<Tables, AllocError> {
    let sites = vec![in alloc; SITES[0], SITES[1], SITES[2], SITES[3], SITES[4]]?;
    let targets = vec![in alloc; TARGETS[0], TARGETS[1]]?;
    Ok(Tables {
        base: 0x0800_0000,
        comps: ListVec::new(compartments(alloc, closed)?),
        sites: ListVec::new(sites),
        targets: ListVec::new(targets),
        lends: ListVec::new(vec![in alloc; 4]?),
        inits: ListVec::new(Vec::new(alloc)),
        words: ListVec::new(Vec::new(alloc)),
        stack: Spot {
            base: 0x2000_0000,
            size: 2048,
        },
        monitor: MONITOR,
        main: 0x0800_2001,
        main_comp: 0,
        closed,
    })
}

/// The words of these tables behind the page.
#[rattlefmt::skip]
const AREA: &[u32] = &[
    3, 5, 2, 1, 0, 0x2000_0000, 0x800, MONITOR,
    0x0800_2012, 0x0602_000d, 0x4001_0014, 0x1301_0013, 0x15, 0, 0x16, 0, 0x17, 0, 0, 0,
    0x0800_2092, 0x0602_0009, 0x14, 0, 0x15, 0, 0x16, 0, 0x17, 0, 1, 0,
    0x0800_20b2, 0x0602_0009, 0x14, 0, 0x15, 0, 0x16, 0, 0x17, 0, 0, 0,
    0x0800_2016, 0, 1,
    0x0800_201a, 1, 1,
    0x0800_201e, 0, 1,
    0x0800_2028, 0, 1,
    0x0800_202c, 0, 1,
    0x0800_2081, 1,
    0x0800_20a1, 2,
    4,
];

/// On a closed board the read mask of the second compartment.
const READS_AT: usize = 4096 + 4 * 31;

/// r0 to r3 become 10 to 13, lr 13, r12 the entry of the second compartment, and N is set.
#[rattlefmt::skip]
const MAIN: &[u32] = &[
    0x210b_200a, // MOVS r0, #10; MOVS r1, #11
    0x230d_220c, // MOVS r2, #12; MOVS r3, #13
    0xf242_469e, // MOV lr, r3; MOVW r12, #0x2081
    0xf6c0_0c81,
    0x4288_0c00, // MOVT r12, #0x0800; CMP r0, r1
];

/// An image with the monitor's page, these tables, and a case's code behind the beginning of `main` and in the second compartment.
fn board(alloc: Global, closed: bool, code: &[u32], second: &[u32]) -> Result<Image, AllocError>
    requires few { length code.now ≤ 16 }
    requires short { length second.now ≤ 8 }
    ensures rules { IfOk result ObeysRules }
    ensures windows { IfOk result (λ image. length image.windows ≡ 0) }
{
    let monitor = page(alloc, &tables(alloc, closed)?)?;
    let mut flash = vec![in alloc; 0xffu8; 12288]?;
    let bytes = flash.as_mut_slice();
    bytes[..4096].copy_from_slice(monitor.as_slice());
    write_words(bytes, 4096, AREA);
    write_words(bytes, READS_AT, &[u32::from(closed)]);
    write_words(bytes, 0x2000, MAIN);
    write_words(bytes, 0x2014, code);
    write_words(bytes, 0x2080, second);
    Ok(Image {
        flash_base: 0x0800_0000,
        flash: ListVec::new(flash),
        ram_base: 0x2000_0000,
        ram_size: 65536,
        monitor: MONITOR,
        stack_base: 0,
        stack_size: 0,
        regions: 8,
        closed,
        windows: ListVec::new(Vec::new(alloc)),
    })
}

/// The machine at reset on such a board.
pub(crate) fn start(
    alloc: Global,
    closed: bool,
    code: &[u32],
    second: &[u32],
) -> Result<Machine, AllocError>
    requires few { length code.now ≤ 16 }
    requires short { length second.now ≤ 8 }
{
    let image = board(alloc, closed, code, second)?;
    let tape = Tape::empty(alloc, 0)?;
    Machine::start(alloc, &image, tape, 0)
}

/// The word at an address of RAM.
pub(crate) fn word(machine: &Machine, address: u32) -> Option<u32> {
    let low = machine.byte(address)?;
    let second = machine.byte(address.checked_add(1)?)?;
    let third = machine.byte(address.checked_add(2)?)?;
    let high = machine.byte(address.checked_add(3)?)?;
    Some(u32::from_le_bytes([low, second, third, high]))
}
