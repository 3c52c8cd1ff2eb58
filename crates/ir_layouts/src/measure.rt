//! Sizes, alignments and numbers of cells.

ghost use Rattle.std.specs.Prelude.{◌≡◌, ◌*◌, ◌≤◌, ◌^◌};
ghost use Rattle.ir_layouts.specs.Measures.{capped};

/// The greatest number that a measure tells: greater ones count as this.
const CAP: u64 = 1 << 32;

/// Size, alignment and number of cells of a type. A size or a number of cells above 2^32 counts as 2^32.
#[derive(Clone, Copy)]
pub struct Measure {
    /// The size in bytes.
    pub size: u64,
    /// The alignment in bytes: 1, 2 or 4.
    pub align: u32,
    /// How many cells it has.
    pub cells: u64,
}

fn times(count: u32, number: u64) -> u64
    requires { number ≤ 2 ^ 32 }
    ensures { result ≡ capped (count * number) }
{
    if count == 0 {
        return 0;
    }
    if number == CAP {
        return CAP;
    }
    (u64::from(count) * number).min(CAP)
}

/// What a type of one cell has.
pub(crate) fn one_cell(width: u32) -> Measure
    requires { width ≤ 4 }
    ensures { result ≡ record { size = width; align = width; cells = 1 } }
{
    Measure {
        size: u64::from(width),
        align: width,
        cells: 1,
    }
}

/// What a type without bytes has.
pub(crate) fn nothing() -> Measure
    ensures { result ≡ record { size = 0; align = 1; cells = 0 } }
{
    Measure {
        size: 0,
        align: 1,
        cells: 0,
    }
}

/// What an array of so many elements has.
pub(crate) fn many(count: u32, element: Measure) -> Measure
    requires size { element.size ≤ 2 ^ 32 }
    requires cells { element.cells ≤ 2 ^ 32 }
    ensures { result ≡ record { size = capped (count * element.size); align = element.align; cells = capped (count * element.cells) } }
{
    Measure {
        size: times(count, element.size),
        align: element.align,
        cells: times(count, element.cells),
    }
}
