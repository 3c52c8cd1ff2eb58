//! The machine of Armv7-M: one step at a time, as the definitions say, with decoded flash and permitted blocks kept at hand.
#![tactic(auto)]

ghost use Rattle.std.specs.Prelude.{◌≡◌, ◌<◌, length, not, IfOk};
ghost use Rattle.std.specs.Fn.{CalledAt};
ghost use Rattle.machine_bus.specs.Memory.{byte_at};
ghost use Rattle.machine_bus.specs.Locations.{location};
ghost use Rattle.machine_devices.specs.Rules.{ObeysRules};
ghost use Rattle.machine_protection.specs.Registers.{at_reset};

mod accesses;
mod blocks;
mod branches;
mod data;
mod exceptions;
mod fetching;
mod flash_code;
mod guard;
mod memory_instructions;
mod parts;
mod reads;
mod register_instructions;
mod several;
mod special_registers;

use crate::exceptions::vector;
use crate::parts::Parts;
use base_events::event::Event;
use base_words::conditions::Flags;
use base_words::memory::{Width, read_value};
pub use flash_code::{Decoded, FlashCode};
pub use guard::Guard;
use machine_bus::bus::Bus;
use machine_devices::image::Image;
use machine_devices::tape::Tape;
use machine_model::state::{CoreRegisters, End, FaultStatus, ProtectionState};
use machine_protection::unit::Mpu;
use std::alloc::{AllocError, Global};
use std::marker::Model;

/// What a step answers.
#[derive(Clone, Copy, PartialEq, Eq)]
pub enum Step {
    /// It ran, and told nothing.
    Ran,
    /// It ran, and accessed a peripheral.
    Event(Event),
    /// The machine has ended.
    Ended(End),
}

/// A machine. Only `start` takes memory.
pub struct Machine {
    parts: Parts,
    code: FlashCode,
}

impl Drop for Machine {
    fn drop(self) {
        let Machine { parts: _, code: _ } = self;
    }
}

impl Model for Machine {
    ghost use Rattle.machine_emulator.specs.Machine.{MachineState, IsMachine};
    ghost use Rattle.machine_emulator.specs.Code.{IsCodeOf};
    ghost use Rattle.machine_emulator.specs.Parts.{state_of};

    ghost Value = { MachineState };

    ghost view = { λ m. record { image = m.parts.bus.image; state = state_of m.parts } };

    ghost invariant = { λ m. IsMachine (record { image = m.parts.bus.image; state = state_of m.parts })
        × IsCodeOf m.parts.bus.image m.code };
}

/// The protection unit at reset, with as many regions as the image tells.
fn unit_at_reset(image: &Image) -> Mpu
    requires { ObeysRules image.now }
    ensures { result ≡ at_reset image.now.regions }
{
    if image.regions == 16 {
        Mpu::sixteen()
    } else {
        Mpu::new()
    }
}

impl Machine {
    ghost use Rattle.machine_emulator.specs.Machine.{IsMachine, IsRun, answer};
    ghost use Rattle.machine_model.specs.Run as runs;
    ghost use Rattle.machine_model.specs.State as state;
    ghost use Rattle.machine_model.specs.Step as steps;

    /// The machine at reset (B1.5.5, TakeReset). RAM holds the fill byte, and the windows give the words of the tape.
    #[tactic(auto, unfolding(machine_model::specs::Run::start))]
    pub fn start(alloc: Global, image: &Image, tape: Tape, fill: u8) -> Result<Machine, AllocError>
        requires rules { ObeysRules image.now }
        requires queues { length tape ≡ length image.now.windows }
        ensures { IfOk result (λ machine. machine
            ≡ record { image = image.now; state = runs.start image.now tape fill }) }
    {
        let bus = Bus::new(alloc, image, tape, fill)?;
        let code = FlashCode::new(alloc, image);
        let stack_pointer = read_value(image.flash.as_slice(), 0, Width::Word);
        let core = CoreRegisters {
            low: [0; 8],
            high: [0; 5],
            sp: stack_pointer / 4 * 4,
            other_sp: 0,
            on_psp: false,
            lr: 0xFFFF_FFFF,
            pc: vector(image, 1),
            flags: Flags {
                negative: false,
                is_zero: false,
                carry: false,
                overflow: false,
            },
        };
        let protection = ProtectionState {
            handler: false,
            unprivileged: false,
            mpu: unit_at_reset(image),
        };
        Ok(Machine {
            parts: Parts {
                bus,
                core,
                protection: Guard::new(protection),
                status: FaultStatus::at_reset(),
                ending: None,
            },
            code,
        })
    }

    /// One instruction. A machine that has ended answers its end again, and stays as it is. A step that ends the
    /// machine has no event.
    #[tactic(auto, unfolding(machine_model::specs::Step::turn))]
    pub fn step(&mut self) -> Step
        ensures state { self.new ≡ record self.old { state = steps.step self.old.image self.old.state } }
        ensures answer { result ≡ answer (steps.turn state.by_mpu self.old.image self.old.state) }
        ensures kept { IsMachine self.new }
    {
        if let Some(end) = self.parts.ending {
            return Step::Ended(end);
        }
        let event = self.parts.turn(&self.code);
        match (self.parts.ending, event) {
            (Some(end), _) => Step::Ended(end),
            (None, Some(event)) => Step::Event(event),
            (None, None) => Step::Ran,
        }
    }

    /// Runs at most so many steps, and calls back with their events, with each one time and in their order. `Limit`
    /// where all of them ran, the machine has not ended, and no event was refused; `Refused` where the callback
    /// answered false, on the event of the last step; neither of the two ends the machine. Else the answer is the
    /// machine's end.
    pub fn run<G: FnMut(&Event) -> bool>(&mut self, n: u64, each: &mut G) -> End
        requires { G.IsAlwaysCallable each.old }
        ensures { IsRun (CalledAt G.FnMut) n self.old self.new each.old each.new result }
    {
        for _step in 0..n {
            match self.step() {
                Step::Ran => {}
                Step::Event(event) => {
                    if !each(&event) {
                        return End::Refused;
                    }
                }
                Step::Ended(end) => return end,
            }
        }
        match self.parts.ending {
            Some(end) => end,
            None => End::Limit,
        }
    }

    /// Register r0 to r15 (B1.4.7). r15 is where the next instruction stands; after an end, where the one that ended stands.
    pub fn reg(&self, k: u8) -> u32
        requires { k < 16 }
        ensures { result ≡ state.register self.now.state.core k }
    {
        self.parts.core.register(k)
    }

    /// The byte of flash or RAM at an address, and `None` exactly where neither holds it.
    pub fn byte(&self, addr: u32) -> Option<u8>
        ensures { result ≡ byte_at (location self.now.image addr) self.now.image self.now.state.ram }
    {
        self.parts.bus.byte(addr)
    }

    /// Whether instructions are privileged (B1.3.1).
    pub fn privileged(&self) -> bool
        ensures { result ≡ not (state.is_unprivileged self.now.state.protection) }
    {
        !self.parts.protection.is_unprivileged()
    }

    /// The protection unit.
    pub fn mpu(&self) -> &Mpu
        ensures { result.now ≡ self.now.state.protection.mpu }
    {
        self.parts.protection.mpu()
    }
}
