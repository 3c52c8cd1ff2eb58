//! The tables of a small firmware, in an image that an independent model of the compiler made, and the checks of images.

ghost use Rattle.example_monitor.specs.Joined.{ComputesJoined};
ghost use Rattle.example_monitor.specs.LentTables.{ComputesTables};
ghost use Rattle.example_monitor.specs.Audits.{ComputesAudits};

/// The words of the tables, where they stand in flash, and the regions that they ask for; they are read back from the image.
pub fn lent_tables()
    ensures { ComputesTables }
{}

/// The checks of that image, and of images that differ from it in one place.
pub fn audits()
    ensures { ComputesAudits }
{}

/// The image of the firmware that lends a local, with the monitor's own code, and that it is sound.
pub fn sound_image()
    ensures { ComputesJoined }
{}
