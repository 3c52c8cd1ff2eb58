//! What a firmware is analysed to.

ghost use Rattle.std.specs.Prelude.{◌≡◌, length};

use ir_program::program::Program;
use plan_model::groups::Groups;
use plan_model::needs::Needs;

/// What a firmware is analysed to: its program of numbers, what its functions need on a kind of board, and the compartments of a policy.
pub struct Analysis<'a> {
    /// The firmware with numbers for its names.
    pub program: Program<'a>,
    /// What its functions may reach.
    pub needs: Needs,
    /// Its compartments.
    pub groups: Groups,
    /// There is a need of each function.
    pub ghost each_need: { length needs.funcs ≡ length program.funcs },
    /// There is a compartment for each function.
    pub ghost each_group: { length groups.of ≡ length needs.funcs },
}

impl Drop for Analysis<'_> {
    fn drop(self) {
        let Analysis {
            program: _,
            needs: _,
            groups: _,
        } = self;
    }
}

impl<'a> Analysis<'a> {
    /// The program, the needs and the compartments by themselves.
    pub fn into_parts(self) -> (Program<'a>, Needs, Groups)
        ensures program { result.0 ≡ self.entry.program }
        ensures needs { result.1 ≡ self.entry.needs }
        ensures groups { result.2 ≡ self.entry.groups }
        ensures each_need { length result.1.funcs ≡ length result.0.funcs }
        ensures each_group { length result.2.of ≡ length result.1.funcs }
    {
        let Analysis {
            program,
            needs,
            groups,
        } = self;
        (program, needs, groups)
    }
}
