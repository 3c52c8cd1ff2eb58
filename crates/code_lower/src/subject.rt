//! The function whose code is put, and what its code is made of.

ghost use Rattle.std.specs.Prelude.{◌≡◌, ◌+◌, ◌/◌, ◌<◌, [], ◌∷◌, ◌++◌, map, length, replicate, None, OnOk, IfOk, IfSome};
ghost use Rattle.std.specs.List.{All};
ghost use Rattle.ir_model.specs.Resolved.{func_at};
ghost use Rattle.ir_program.specs.Parts.{routine_of, sequence_of};
ghost use Rattle.ir_program.specs.Seen.{known_of, program_of};
ghost use Rattle.std.proofs.Math.ListN.{get_or};
ghost use Rattle.code_model.specs.FrameShape.{frame_shape};
ghost use Rattle.code_model.specs.Places as definition;
ghost use Rattle.code_model.specs.Places.{lends_among};
ghost use Rattle.plan_model.specs.CompileLimits.{site_limit};
ghost use Rattle.code_lower.specs.Subjects.{func_of, block_in, lend_of, labels_from, first_label, IsSubject, IsSmallLend};
ghost use Rattle.code_model.specs.Fitting.{FuncFits};

use crate::frame::local_starts;
use code_model::{CallSite, Places};
use code_offsets::frame::frame_words;
use ir_program::program::{Program, Routine, Sequence};
use machine_thumb_asm::{Asm, Label};
use std::alloc::{AllocError, Global};

/// A local that is lent to other compartments for as long as its function runs.
#[derive(Clone, Copy)]
pub(crate) struct Lent {
    /// The first of its words in the frame.
    pub home: usize,
    /// The number by which it is lent.
    pub number: u32,
}

/// A function whose code is put.
pub(crate) struct Subject<'a> {
    /// The firmware.
    pub program: &'a Program<'a>,
    /// The function.
    pub routine: &'a Routine<'a>,
    /// What its code needs from outside.
    pub places: &'a Places,
    /// How many words of its frame lie below the return address.
    pub words: usize,
    /// How many bytes behind the stack pointer each local begins.
    pub starts: Vec<u32>,
    /// The locals that are lent.
    pub lent: Vec<Lent>,
    /// The label of each block.
    pub labels: Vec<Label>,
}

impl Drop for Subject<'_> {
    fn drop(self) {
        let Subject {
            program: _,
            routine: _,
            places: _,
            words: _,
            starts: _,
            lent: _,
            labels: _,
        } = self;
    }
}

/// Puts a local that begins there behind others, if it has a number by which it is lent.
fn push_lent(lent: &mut Vec<Lent>, start: u32, number: Option<u32>) -> Result<(), AllocError>
    requires near { start < 1024 }
    requires few { IfSome number (λ k. k < 32) }
    requires small { All IsSmallLend lent.old.items }
    ensures exact { OnOk result (map lend_of lent.new.items ≡ map lend_of lent.old.items ++ lends_among (start ∷ []) (number ∷ [])) }
    ensures all_small { OnOk result (All IsSmallLend lent.new.items) }
{
    match number {
        None => Ok(()),
        Some(number) => {
            let home = (start / 4) as usize;
            lent.push(Lent { home, number })?;
            Ok(())
        }
    }
}

/// The lent ones of the locals that begin there and have these numbers.
#[tactic(auto, using(crate::proofs::Preparing::lending))]
fn lent_among(
    alloc: Global,
    starts: &[u32],
    numbers: &[Option<u32>],
) -> Result<Vec<Lent>, AllocError>
    requires pairs { length starts.now ≡ length numbers.now }
    requires near { All (λ s. s < 1024) starts.now }
    requires few { All (λ n. IfSome n (λ k. k < 32)) numbers.now }
    ensures exact { IfOk result (λ lent. map lend_of lent.items ≡ lends_among starts.now numbers.now) }
    ensures small { IfOk result (λ lent. All IsSmallLend lent.items) }
{
    let mut lent = Vec::new(alloc);
    for k in 0..starts.len() {
        push_lent(&mut lent, starts[k], numbers[k])?;
    }
    Ok(lent)
}

/// `count` new labels, one behind the other.
fn new_labels(alloc: Global, asm: &mut Asm, count: usize) -> Result<Vec<Label>, AllocError>
    ensures labels { IfOk result (λ labels. labels.items ≡ labels_from (length asm.old.places) count) }
    ensures asm { OnOk result (asm.new ≡ record asm.old { places = asm.old.places ++ replicate count None }) }
{
    let mut labels = Vec::new(alloc);
    for k in 0..count {
        labels.push(asm.label()?)?;
    }
    Ok(labels)
}

/// The function of this number.
pub(crate) fn routine_at<'a>(program: &'a Program<'a>, func: usize) -> &'a Routine<'a>
    requires { func < length program.now.funcs }
    ensures { func_at (program_of program.now) func ≡ routine_of (known_of program.now) result.now }
{
    &program.funcs.as_slice()[func]
}

/// The function of this number, with new labels for its blocks.
pub(crate) fn make_subject<'a>(
    alloc: Global,
    program: &'a Program<'a>,
    func: usize,
    places: &'a Places,
    asm: &mut Asm,
) -> Result<Subject<'a>, AllocError>
    requires there { func < length program.now.funcs }
    requires fits { FuncFits places.now (func_at (program_of program.now) func) }
    ensures subject { IfOk result IsSubject }
    ensures func { IfOk result (λ s. func_of s ≡ func_at (program_of program.now) func) }
    ensures places { IfOk result (λ s. s.places.now ≡ places.now) }
    ensures first { IfOk result (λ s. first_label s.labels.items ≡ length asm.old.places) }
    ensures asm { OnOk result (asm.new ≡ record asm.old { places = asm.old.places ++ replicate (length (func_at (program_of program.now) func).blocks) None }) }
{
    let routine = routine_at(program, func);
    let Some(words) = frame_words(routine) else {
        return Err(AllocError);
    };
    let starts = local_starts(alloc, routine)?;
    let lent = lent_among(alloc, starts.as_slice(), places.lends.as_slice())?;
    let labels = new_labels(alloc, asm, routine.blocks.len())?;
    Ok(Subject {
        program,
        routine,
        places,
        words: words as usize,
        starts,
        lent,
        labels,
    })
}

/// The number of the site of the call at a place, if it may go to another compartment.
fn site_in(sites: &[CallSite], block: usize, place: usize) -> Option<u32>
    ensures exact { result ≡ definition.site_in sites.now block place }
    ensures small { All (λ (s : CallSite). s.number < site_limit) sites.now → IfSome result (λ s. s < site_limit) }
{
    for site in sites {
        if site.block as usize == block && site.place as usize == place {
            return Some(site.number);
        }
    }
    None
}

impl Subject<'_> {
    /// The number of the site of the call at a place, if it may go to another compartment.
    pub(crate) fn site(&self, block: usize, place: usize) -> Option<u32>
        requires { IsSubject self.now }
        ensures exact { result ≡ definition.site_in self.now.places.now.sites block place }
        ensures small { IfSome result (λ s. s < site_limit) }
    {
        site_in(self.places.sites.as_slice(), block, place)
    }

    /// A block.
    pub(crate) fn sequence(&self, block: usize) -> &Sequence<'_>
        requires { block < length (func_of self.now).blocks }
        ensures { block_in self.now block ≡ sequence_of (known_of self.now.program.now) result.now }
    {
        &self.routine.blocks.as_slice()[block]
    }

    /// The label of a block.
    pub(crate) fn label(&self, block: usize) -> Label
        requires subject { IsSubject self.now }
        requires there { block < length (func_of self.now).blocks }
        ensures exact { result.number ≡ first_label self.now.labels.items + block }
    {
        self.labels[block]
    }

    /// The first word of a local in the frame.
    pub(crate) fn home(&self, local: usize) -> usize
        requires subject { IsSubject self.now }
        requires there { local < length (func_of self.now).locals }
        ensures exact { result ≡ get_or (frame_shape (func_of self.now)).starts local 0 / 4 }
        ensures near { result < 256 }
    {
        (self.starts[local] / 4) as usize
    }
}
