//! Searches by halving among the fields of a struct.

ghost use Rattle.std.specs.Prelude.{MatchOption};
ghost use Rattle.std.specs.List.Sorted.{IsNonDecreasingBy};
ghost use Rattle.ir_cells.specs.Halving.{IsFirstAbove, IsLastWithin};

use ir_layouts::struct_layout::Field;

/// The last field that does not begin behind an offset.
pub fn last_at(fields: &[Field], at: u32) -> Option<usize>
    requires { IsNonDecreasingBy (λ f. f.at) fields.now }
    ensures { MatchOption result (IsFirstAbove (λ f. f.at) fields.now at 0) (IsLastWithin (λ f. f.at) fields.now at) }
{
    let behind = fields.partition_point(|field| field.at <= at);
    if behind == 0 {
        return None;
    }
    Some(behind - 1)
}

/// The last field whose first cell has no greater number.
pub fn last_cell(fields: &[Field], number: u32) -> Option<usize>
    requires { IsNonDecreasingBy (λ f. f.first_cell) fields.now }
    ensures { MatchOption result (IsFirstAbove (λ f. f.first_cell) fields.now number 0) (IsLastWithin (λ f. f.first_cell) fields.now number) }
{
    let behind = fields.partition_point(|field| field.first_cell <= number);
    if behind == 0 {
        return None;
    }
    Some(behind - 1)
}
