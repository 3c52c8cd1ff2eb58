//! PUSH, POP, STMIA and LDMIA: several words, which are all tested first.

ghost use Rattle.std.specs.Prelude.{◌≡◌, ◌<◌, ◌≤◌, ◌%◌, ◌+◌, ◌++◌, List, ℕ, Option, None, length, MatchOption};
ghost use Rattle.arrayvec.specs.ArrayVec.{array_vec_len};
ghost use Rattle.machine_model.specs.declared.state.CoreRegisters.{CoreRegisters as Core};
ghost use Rattle.machine_model.specs.Act.{LoadsMany, StoresMany};
ghost use Rattle.machine_model.specs.Instructions as instructions;
ghost use Rattle.machine_emulator.specs.Parts.{state_of, left, left_by, does};
ghost use Rattle.machine_model.specs.Perform as perform;
ghost use Rattle.machine_emulator.specs.Accesses.{AreFit};
ghost use Rattle.machine_model.specs.State.{by_mpu};
ghost use Rattle.machine_model.specs.Tests as tests;

use crate::Guard;
use crate::accesses::{is_in_system, test_access};
use crate::parts::Parts;
use arrayvec::ArrayVec;
use base_events::event::Event;
use machine_bus::bus::Bus;
use machine_model::answers::{Verdict, Verdicts};
use machine_model::state::{CoreRegisters, StopReason};
use machine_protection::region::Access;

/// The words of one instruction: at most the eight low registers and one more.
type Words = ArrayVec<u32, 9>;

/// The tests of so many words in rising order. None of them may go to a window.
#[tactic(auto, unfolding(machine_model::specs::Tests::verdicts))]
fn test_words(bus: &Bus, guard: &mut Guard, kind: Access, address: u32, count: u8) -> Verdicts
    ensures verdicts { result
        ≡ tests.verdicts by_mpu bus.now.image guard.old kind address count }
    ensures fit { AreFit result address count }
    ensures same { guard.new ≡ guard.old }
{
    if count == 0 {
        return Verdicts::AllGood;
    }
    match test_access(guard, kind, 4, address) {
        Verdict::Refused => Verdicts::RefusedAt(address),
        Verdict::Bad(reason) => Verdicts::BadOne(reason),
        Verdict::ToBus if !bus.is_memory(kind, address) => Verdicts::BadOne(StopReason::Bus),
        Verdict::ToBus | Verdict::ToSystem => {
            test_words(bus, guard, kind, address.wrapping_add(4), count - 1)
        }
    }
}

/// Puts the registers of a list of bits behind those that are there, the lowest first.
#[tactic(auto, unfolding(machine_model::specs::Instructions::listed))]
fn list_registers(count: u8, register: u8, bits: u8, registers: &mut ArrayVec<u8, 8>)
    requires room { array_vec_len registers.old + count ≤ 8 }
    requires number { register + count ≤ 8 }
    ensures registers { registers.new.items
        ≡ registers.old.items ++ instructions.listed count register bits }
    ensures length { array_vec_len registers.new ≤ array_vec_len registers.old + count }
{
    if count == 0 {
        return;
    }
    if bits % 2 == 1 {
        registers.push(register);
    }
    list_registers(count - 1, register + 1, bits / 2, registers);
}

/// The registers of a list of bits, the lowest first.
fn registers_of(list: u8) -> ArrayVec<u8, 8>
    ensures registers { result.items ≡ instructions.listed 8 0 list }
    ensures few { array_vec_len result ≤ 8 }
{
    let mut registers = ArrayVec::new();
    list_registers(8, 0, list, &mut registers);
    registers
}

/// The last value, or 0 where there is none.
#[tactic(auto, using(crate::proofs::Lists::last_of_is))]
fn last(values: &[u32]) -> u32
    ensures { result ≡ instructions.last_of values.now }
{
    match values.last() {
        Some(value) => *value,
        None => 0,
    }
}

/// Puts the values of registers behind those that are there.
fn append_values(core: &CoreRegisters, registers: &[u8], values: &mut Words)
    requires { array_vec_len values.old + length registers.now ≤ 9 }
    ensures values { values.new.items
        ≡ values.old.items ++ instructions.values_of core.now registers.now }
    ensures length { array_vec_len values.new ≡ array_vec_len values.old + length registers.now }
{
    if let Some((register, rest)) = registers.split_first() {
        values.push(core.low_register(*register));
        append_values(core, rest, values);
    }
}

/// Writes values into registers, one into each.
fn fill(core: &mut CoreRegisters, registers: &[u8], values: &[u32])
    ensures { core.new ≡ instructions.filled core.old registers.now values.now }
{
    if let (Some((register, registers)), Some((value, values))) = (
        registers.split_first(),
        values.split_first(),
    ) {
        core.set_low_register(*register, *value);
        fill(core, registers, values);
    }
}

/// The values of the registers of a list of bits.
fn listed_values(core: &CoreRegisters, list: u8) -> Words
    ensures values { result.items
        ≡ instructions.values_of core.now (instructions.listed 8 0 list) }
    ensures few { array_vec_len result ≤ 8 }
    ensures length { array_vec_len result ≡ length (instructions.listed 8 0 list) }
{
    let registers = registers_of(list);
    let mut values = ArrayVec::new();
    append_values(core, registers.as_slice(), &mut values);
    values
}

/// The registers after a POP of these values, or none where the last is no proper branch.
fn popped(
    mut core: CoreRegisters,
    p: u8,
    next: u32,
    registers: &[u8],
    values: &[u32],
) -> Option<CoreRegisters>
    requires { length values.now ≤ 9 }
    ensures { result ≡ instructions.popped p next core registers.now values.now }
{
    core.sp = core.sp.wrapping_add(4 * values.len() as u32);
    fill(&mut core, registers, values);
    core.pc = if p == 1 {
        let target = last(values);
        if target % 2 == 0 {
            return None;
        }
        target - 1
    } else {
        next
    };
    Some(core)
}

impl Parts {
    /// Reads so many words one after another, and puts them behind those that are there.
    #[tactic(auto, unfolding(machine_model::specs::Perform::get_words))]
    fn get_words(&self, address: u32, count: u8, words: &mut Words)
        requires aligned { 0 < count → address % 4 ≡ 0 }
        requires room { array_vec_len words.old + count ≤ 9 }
        ensures words { words.new.items
            ≡ words.old.items ++ perform.get_words self.now.bus.image address count (state_of self.now) }
        ensures length { array_vec_len words.new ≡ array_vec_len words.old + count }
    {
        if count == 0 {
            return;
        }
        words.push(if is_in_system(address) {
            self.read_system(address)
        } else {
            self.bus.word(address)
        });
        self.get_words(address.wrapping_add(4), count - 1, words);
    }

    /// Stores words one after another.
    #[tactic(auto, unfolding(machine_model::specs::Perform::put_words))]
    fn put_words(&mut self, address: u32, values: &[u32])
        requires { 0 < length values.now → address % 4 ≡ 0 }
        ensures state { state_of self.new
            ≡ perform.put_words self.old.bus.image address values.now (state_of self.old) }
        ensures image { self.new.bus.image ≡ self.old.bus.image }
    {
        if let Some((value, rest)) = values.split_first() {
            if is_in_system(address) {
                self.write_system(address, *value);
            } else {
                let _ = self.bus.store(address, 4, *value);
            }
            self.put_words(address.wrapping_add(4), rest);
        }
    }

    /// Loads so many words, and answers `None` where a fault is taken, or the machine stops.
    #[tactic(auto, unfolding(machine_model::specs::Perform::perform))]
    fn load_words(&mut self, address: u32, count: u8) -> Option<Words>
        requires aligned { self.old.core.sp % 4 ≡ 0 }
        requires few { count ≤ 9 }
        ensures { (go : List ℕ → Option Core) → MatchOption result
            (left self.new None ≡ does (LoadsMany address count go) self.old)
            (λ words. (self.new ≡ self.old)
            × (left_by self.old.bus.image
            (perform.or_usage (go words.items) address count (state_of self.old))
            ≡ does (LoadsMany address count go) self.old)) }
    {
        match test_words(
            &self.bus,
            &mut self.protection,
            Access::Read,
            address,
            count,
        ) {
            Verdicts::AllGood => {
                let mut words = ArrayVec::new();
                self.get_words(address, count, &mut words);
                Some(words)
            }
            Verdicts::RefusedAt(refused) => {
                let _ = self.data_fault(refused);
                None
            }
            Verdicts::BadOne(reason) => {
                let _ = self.stop(reason);
                None
            }
        }
    }

    /// Stores words, and takes these registers then.
    #[tactic(auto, unfolding(machine_model::specs::Perform::perform))]
    fn store_words(&mut self, address: u32, values: &[u32], core: CoreRegisters) -> Option<Event>
        requires aligned { self.old.core.sp % 4 ≡ 0 }
        requires few { length values.now ≤ 9 }
        ensures { left self.new result ≡ does (StoresMany address values.now core) self.old }
    {
        match test_words(
            &self.bus,
            &mut self.protection,
            Access::Write,
            address,
            values.len() as u8,
        ) {
            Verdicts::AllGood => {
                self.core = core;
                self.put_words(address, values);
                None
            }
            Verdicts::RefusedAt(refused) => self.data_fault(refused),
            Verdicts::BadOne(reason) => self.stop(reason),
        }
    }

    /// PUSH: the registers of the list, and the link register where `m` is 1, below the stack pointer (A7.7.99).
    pub fn push(&mut self, m: u8, list: u8, next: u32) -> Option<Event>
        requires { self.old.core.sp % 4 ≡ 0 }
        ensures { left self.new result
            ≡ does (instructions.push_or_pop 0 m 0 list next self.old.core) self.old }
    {
        let mut values = listed_values(&self.core, list);
        if m == 1 {
            values.push(self.core.lr);
        }
        let values = values.as_slice();
        let address = self.core.sp.wrapping_sub(4 * values.len() as u32);
        let core = CoreRegisters {
            sp: address,
            pc: next,
            ..self.core
        };
        self.store_words(address, values, core)
    }

    /// POP: the registers of the list, and the program counter where `p` is 1 (A7.7.98).
    pub fn pop(&mut self, p: u8, list: u8, next: u32) -> Option<Event>
        requires aligned { self.old.core.sp % 4 ≡ 0 }
        requires bit { p < 2 }
        ensures { left self.new result
            ≡ does (instructions.push_or_pop 1 0 p list next self.old.core) self.old }
    {
        let registers = registers_of(list);
        let words = self.load_words(self.core.sp, registers.len() as u8 + p)?;
        match popped(self.core, p, next, registers.as_slice(), words.as_slice()) {
            Some(core) => {
                self.core = core;
                None
            }
            None => self.stop(StopReason::Usage),
        }
    }

    /// STMIA: the registers of the list from the base on, which goes up behind them (A7.7.156).
    pub fn store_multiple(&mut self, base: u8, list: u8, next: u32) -> Option<Event>
        requires { self.old.core.sp % 4 ≡ 0 }
        ensures { left self.new result ≡ does
            (instructions.store_multiple base (instructions.listed 8 0 list) next self.old.core) self.old }
    {
        let values = listed_values(&self.core, list);
        let values = values.as_slice();
        let address = self.core.low_register(base);
        let mut core = self.core;
        core.take(base, address.wrapping_add(4 * values.len() as u32), next);
        self.store_words(address, values, core)
    }

    /// LDMIA: the registers of the list from the base on, which goes up behind them unless it is loaded (A7.7.41).
    pub fn load_multiple(&mut self, base: u8, list: u8, next: u32) -> Option<Event>
        requires { self.old.core.sp % 4 ≡ 0 }
        ensures { left self.new result ≡ does
            (instructions.load_multiple base (instructions.listed 8 0 list) next self.old.core) self.old }
    {
        let registers = registers_of(list);
        let address = self.core.low_register(base);
        let words = self.load_words(address, registers.len() as u8)?;
        self.core.take(base, address.wrapping_add(4 * registers.len() as u32), next);
        fill(&mut self.core, registers.as_slice(), words.as_slice());
        None
    }
}
