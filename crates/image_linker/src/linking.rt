//! Images by needs, graph, plan and board.

ghost use Rattle.std.specs.Prelude.{◌≡◌, ◌+◌, ◌*◌, ◌≤◌, map, IfOk, IfSome};
ghost use Rattle.ir_program.specs.Seen.{program_of};
ghost use Rattle.ir_program.specs.Windows.{window_of};
ghost use Rattle.ir_model.specs.Checked.{IsChecked};
ghost use Rattle.image_entries.specs.Grouped.{HasEachLend};
ghost use Rattle.image_model.specs.LinkedImage.{flash_of, linked};
ghost use Rattle.plan_crossings.specs.Seen.{seen_sites};
ghost use Rattle.image_entries.specs.Making.{IsReady, program_in};
ghost use Rattle.image_entries.specs.Recorded.{entry_in};
ghost use Rattle.image_linker.specs.LinkParts.{AreLinkParts};
ghost use Rattle.image_linker.specs.Parts.{AreAddresses, AreCrossings, AreFills, words_behind, tables_in};

use crate::flash::flash;
use base_lists::ListVec;
use code_model::Addresses;
use image_blocks::fill::{filled_blocks, init_records, words_of};
use image_blocks::places::{global_addresses, window_addresses};
use image_blocks::slots::comp_records;
use image_entries::entries::{entries, sizes};
use image_entries::making::Making;
use image_entries::numbers::{Numbers, numbers_of};
use image_entries::records::{entry_at, lend_sizes, site_records, target_records};
use ir_model::firmware::Peripheral;
use ir_program::peripherals::windows;
use ir_program::program::Program;
use machine_devices::image::Image;
use monitor_model::{InitRecord, SiteRecord, Tables, TargetRecord};
use plan_crossings::{compartment_of, crossing_sites, lent_locals};
use plan_model::graph::Final;
use plan_model::needs::{Needs, SiteNeed};
use plan_model::plan::{Board, Plan};
use std::alloc::{AllocError, Global};

/// The addresses of all globals, windows and functions.
fn addresses(
    alloc: Global,
    program: &Program,
    graph: &Final,
    plan: &Plan,
    numbers: &Numbers,
) -> Result<Addresses, AllocError>
    requires lends { HasEachLend (program_of program.now) numbers.now }
    ensures { IfOk result (λ a. AreAddresses (program_of program.now) graph.now plan.now numbers.now a) }
{
    let compartments = graph.groups.of.as_slice();
    let sizes = sizes(alloc, program, numbers)?;
    if compartments.len() != sizes.len() {
        return Err(AllocError);
    }
    let entries = entries(alloc, plan, compartments, &sizes)?;
    let globals = global_addresses(alloc, program, graph, plan)?;
    let windows = window_addresses(alloc, program)?;
    Ok(Addresses {
        globals: ListVec::new(globals),
        windows: ListVec::new(windows),
        entries: ListVec::new(entries),
    })
}

/// The records of crossing sites, of their targets, and of lent locals.
#[derive(Drop)]
struct Crossings {
    sites: Vec<SiteRecord>,
    targets: Vec<TargetRecord>,
    lends: Vec<u32>,
}

fn make_crossings(
    alloc: Global,
    making: &Making,
    sites: &[&SiteNeed],
    lent: &[(u32, u32)],
) -> Result<Crossings, AllocError>
    requires { IsReady making.now }
    ensures { IfOk result (λ x. AreCrossings making.now (seen_sites sites.now) lent.now x) }
{
    Ok(Crossings {
        sites: site_records(alloc, making, sites)?,
        targets: target_records(alloc, making, sites)?,
        lends: lend_sizes(alloc, making.program, lent)?,
    })
}

/// What start-up fills: the records, and the words.
#[derive(Drop)]
struct Fills {
    inits: Vec<InitRecord>,
    words: Vec<u32>,
}

fn make_fills(alloc: Global, making: &Making, graph: &Final, from: u32) -> Result<Fills, AllocError>
    ensures { IfOk result (λ x. AreFills making.now graph.now from x) }
{
    let blocks = filled_blocks(alloc, graph, making.plan)?;
    Ok(Fills {
        inits: init_records(alloc, making.program, from, &blocks)?,
        words: words_of(alloc, making.program, making.addresses, &blocks)?,
    })
}

/// A number of bytes behind an address.
fn behind(at: u32, size: u32, count: usize) -> Option<u32>
    ensures { IfSome result (λ n. n ≡ at + size * count) }
{
    let Ok(count) = u32::try_from(count) else {
        return None;
    };
    count.checked_mul(size)?.checked_add(at)
}

/// Where the initial words of tables stand.
fn words_begin(base: u32, slots: u8, graph: &Final, x: &Crossings) -> Option<u32>
    requires { slots ≤ 12 }
    ensures { IfSome result (λ n. n ≡ words_behind base slots graph.now x.now) }
{
    let head = base.checked_add(4096 + 32)?;
    let comps = behind(head, 8 * u32::from(slots) + 16, graph.groups.count as usize)?;
    let sites = behind(comps, 12, x.sites.len())?;
    let targets = behind(sites, 8, x.targets.len())?;
    let lends = behind(targets, 4, x.lends.len())?;
    let regions = behind(lends, 12, graph.regions.len())?;
    behind(regions, 12, usize::from(!graph.unwritten.is_empty()))
}

/// The entry of `main`, with bit 0 set.
fn main_entry(making: &Making) -> Option<u32>
    requires { IsReady making.now }
    ensures { IfSome result (λ e. e ≡ entry_in making.now (program_in making.now).main + 1) }
{
    let entry = entry_at(making, u32::from(making.program.main))?;
    entry.checked_add(1)
}

/// The tables.
fn tables(
    alloc: Global,
    making: &Making,
    graph: &Final,
    board: &Board,
    sites: &[&SiteNeed],
    lent: &[(u32, u32)],
) -> Result<Tables, AllocError>
    requires { IsReady making.now }
    ensures { IfOk result (λ t. t ≡ tables_in making.now graph.now board.now (seen_sites sites.now) lent.now) }
{
    let slots = board.slots();
    if slots > 12 {
        return Err(AllocError);
    }
    let slots = slots as u8;
    let program = making.program;
    let plan = making.plan;
    let x = make_crossings(alloc, making, sites, lent)?;
    let Some(from) = words_begin(plan.tables.base, slots, graph, &x) else {
        return Err(AllocError);
    };
    let Some(main) = main_entry(making) else {
        return Err(AllocError);
    };
    let filled = make_fills(alloc, making, graph, from)?;
    let comps = comp_records(alloc, program, graph, plan, slots)?;
    Ok(Tables {
        base: plan.tables.base,
        comps: ListVec::new(comps),
        sites: ListVec::new(x.sites),
        targets: ListVec::new(x.targets),
        lends: ListVec::new(x.lends),
        inits: ListVec::new(filled.inits),
        words: ListVec::new(filled.words),
        stack: plan.stack,
        monitor: plan.monitor.base,
        main,
        main_comp: compartment_of(&graph.groups, u32::from(program.main)),
        closed: board.closed,
    })
}

/// What an image is made of: the numbers of calls and of lent locals, where everything lies, and the monitor's tables.
pub struct LinkParts {
    /// The numbers of each function's call sites and lent locals.
    pub numbers: Numbers,
    /// Where globals, windows and functions lie.
    pub addresses: Addresses,
    /// The monitor's tables.
    pub tables: Tables,
}

impl Drop for LinkParts {
    fn drop(self) {
        let LinkParts {
            numbers: _,
            addresses: _,
            tables: _,
        } = self;
    }
}

/// What the image of a firmware is made of, by its needs, its graph of compartments, its plan and a board.
///
/// # Errors
///
/// There is no memory for it, or the plan is none of this firmware on this board.
pub fn link_parts(
    alloc: Global,
    program: &Program,
    needs: &Needs,
    graph: &Final,
    plan: &Plan,
    board: &Board,
) -> Result<LinkParts, AllocError>
    requires { IsChecked (program_of program.now) }
    ensures { IfOk result (AreLinkParts (program_of program.now) needs.now graph.now plan.now board.now) }
{
    let sites = crossing_sites(alloc, needs, &graph.groups)?;
    let lent = lent_locals(needs, &graph.groups);
    let numbers = numbers_of(alloc, program, &sites, lent)?;
    let addresses = addresses(alloc, program, graph, plan, &numbers)?;
    let making = Making {
        program,
        plan,
        compartments: graph.groups.of.as_slice(),
        numbers: &numbers,
        addresses: &addresses,
    };
    let tables = tables(alloc, &making, graph, board, &sites, lent)?;
    Ok(LinkParts {
        numbers,
        addresses,
        tables,
    })
}

/// The bytes of flash.
fn linked_flash(
    alloc: Global,
    program: &Program,
    needs: &Needs,
    graph: &Final,
    plan: &Plan,
    board: &Board,
) -> Result<Vec<u8>, AllocError>
    requires { IsChecked (program_of program.now) }
    ensures { IfOk result (λ bytes. bytes.items ≡ flash_of (program_of program.now) needs.now graph.now plan.now board.now) }
{
    let parts = link_parts(alloc, program, needs, graph, plan, board)?;
    let making = Making {
        program,
        plan,
        compartments: graph.groups.of.as_slice(),
        numbers: &parts.numbers,
        addresses: &parts.addresses,
    };
    flash(
        alloc,
        board.flash_base,
        &making,
        &parts.tables,
        graph.groups.count,
    )
}

/// The image of a firmware by its needs, its graph of compartments, its plan and a board. `periphs` are the firmware's
/// peripherals.
///
/// # Errors
///
/// There is no memory for it, or the plan is none of this firmware on this board.
#[tactic(auto, unfolding(image_model::specs::LinkedImage::linked))]
pub fn link(
    alloc: Global,
    periphs: &[Peripheral],
    program: &Program,
    needs: &Needs,
    graph: &Final,
    plan: &Plan,
    board: &Board,
) -> Result<Image, AllocError>
    requires { IsChecked (program_of program.now) }
    ensures { IfOk result (λ image. image ≡ linked (program_of program.now) needs.now graph.now plan.now (map window_of periphs.now) board.now) }
{
    let flash = linked_flash(alloc, program, needs, graph, plan, board)?;
    let windows = windows(alloc, periphs)?;
    Ok(Image {
        flash_base: board.flash_base,
        flash: ListVec::new(flash),
        ram_base: board.ram_base,
        ram_size: board.ram_size,
        monitor: plan.monitor.base,
        stack_base: plan.stack.base,
        stack_size: plan.stack.size,
        regions: board.regions,
        closed: board.closed,
        windows: ListVec::new(windows),
    })
}
