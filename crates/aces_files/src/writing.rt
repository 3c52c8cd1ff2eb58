//! Writing the file of a command.

ghost use Rattle.std.specs.Prelude.{◌≡◌, List, All, Some, OnOk, OnErr};
ghost use Rattle.base_outside.specs.Counts.{Rose};
ghost use Rattle.base_outside.specs.Calls.{Call, Calls};
ghost use Rattle.aces_files.specs.CarriesOut.{Writes};
ghost use Rattle.aces_files.specs.Effects.{IsRewritten, IsCutShort};

use base_outside::{Failed, Files};

/// Makes a name hold these bytes: one call that creates it, and one that adds them.
pub fn write<F: Files>(files: &mut F, name: &str, bytes: &[u8]) -> Result<(), Failed>
    ensures ok { OnOk result (IsRewritten F.told (Some (record { name = name.now; bytes = bytes.now }))
        (F.held files.old) (F.held files.new)) }
    ensures err { OnErr result (IsCutShort F.told (Some (record { name = name.now; bytes = bytes.now }))
        (F.held files.old) (F.held files.new)) }
    ensures calls { (calls : List Call) × Calls F.called files.old calls files.new × All (Writes name.now bytes.now) calls }
    ensures rose { OnErr result (Rose (F.write_faults files.old) (F.write_faults files.new)) }
    ensures writes { OnOk result (F.write_faults files.new ≡ F.write_faults files.old) }
    ensures reads { F.read_faults files.new ≡ F.read_faults files.old }
{
    files.create(name)?;
    files.append(name, bytes)
}
