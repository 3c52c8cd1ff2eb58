//! The checks of an image from anyone.

/// A check of an image whose monitor and tables are not trusted, in the order in which they are made.
#[derive(Clone, Copy)]
pub enum AuditCheck {
    /// The image has a monitor's block and a stack, apart from each other, and flash for the tables.
    Header,
    /// The counts are within their limits, the places are the image's, and the tables' block lies in flash.
    Tables,
    /// The first 4,096 bytes are the monitor's code for these tables.
    Code,
    /// Each region of each compartment has one of the forms that are allowed, and the masks are of lendable locals.
    Regions,
    /// Each site has targets, and each target and `main` begin in the code of their compartment.
    Sites,
    /// Each lendable local has a size.
    Lends,
    /// Each range with initial words lies in RAM, and its words stand in their place in flash.
    Inits,
}
