//! What is read of a machine that has stopped running.

ghost use Rattle.std.specs.Prelude.{◌≡◌, ◌%◌};
ghost use Rattle.machine_bus.specs.Bus.{word_at};
ghost use Rattle.machine_bus.specs.Locations.{location};
ghost use Rattle.machine_emulator.specs.Reads as reads;

use crate::Machine;
use machine_devices::image::Image;
use machine_model::state::{CoreRegisters, End, FaultStatus};
use machine_protection::region::Region;
use machine_protection::{MPU_RASR, MPU_RBAR, MPU_RNR};

impl Machine {
    ghost use Rattle.machine_emulator.specs.Machine.{IsMachine};

    /// The image that it was started from.
    pub fn image(&self) -> &Image
        ensures image { result.now ≡ self.now.image }
        ensures kept { IsMachine self.now }
    {
        self.parts.bus.image()
    }

    /// How it ended, if it has.
    pub fn ending(&self) -> Option<End>
        ensures { result ≡ self.now.state.ending }
    {
        self.parts.ending
    }

    /// The core registers, the flags among them (B1.4.1).
    pub fn core(&self) -> CoreRegisters
        ensures { result ≡ self.now.state.core }
    {
        self.parts.core
    }

    /// Whether it is in Handler mode (B1.3.1).
    pub fn is_handler(&self) -> bool
        ensures { result ≡ self.now.state.protection.handler }
    {
        self.parts.protection.is_handler()
    }

    /// The system registers that tell of faults (B3.2.13 to B3.2.17).
    pub fn status(&self) -> FaultStatus
        ensures { result ≡ self.now.state.status }
    {
        self.parts.status
    }

    /// The word of flash or RAM at an address, and 0 where neither holds it. No window takes part.
    pub fn word(&self, address: u32) -> u32
        requires { address % 4 ≡ 0 }
        ensures { result ≡ word_at (location self.now.image address) self.now.image self.now.state.ram }
    {
        self.parts.bus.word(address)
    }

    /// Both words of a region of the protection unit as software reads them: its number is written to MPU_RNR, where it stays
    /// (B3.5.7 to B3.5.9).
    #[tactic(auto, unfolding(machine_protection::specs::Registers::read_register))]
    pub fn region(&mut self, number: u8) -> Region
        ensures words { result ≡ reads.region_words number self.old.state.protection.mpu }
        ensures selected { self.new ≡ reads.with_region number self.old }
    {
        self.parts.protection.write(MPU_RNR, u32::from(number));
        let unit = self.parts.protection.mpu();
        Region {
            rbar: unit.read(MPU_RBAR).unwrap_or(0),
            rasr: unit.read(MPU_RASR).unwrap_or(0),
        }
    }
}
