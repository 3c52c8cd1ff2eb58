//! Whether instructions are privileged, and which accesses are permitted.

ghost use Rattle.std.specs.Prelude.{◌≡◌};
ghost use Rattle.machine_model.specs.State as state;

use crate::state::ProtectionState;
use machine_protection::region::Access;

impl ProtectionState {
    /// Whether instructions are unprivileged (B1.3.1).
    pub fn is_unprivileged(&self) -> bool
        ensures { result ≡ state.is_unprivileged self.now }
    {
        !self.handler && self.unprivileged
    }

    /// Whether the protection unit permits such an access of the byte at an address.
    #[tactic(auto, unfolding(crate::specs::State::by_mpu))]
    pub fn permits(&self, kind: Access, address: u32) -> bool
        ensures { result ≡ state.by_mpu self.now kind address }
    {
        self.mpu.allows(address, 1, kind, !self.is_unprivileged())
    }
}
