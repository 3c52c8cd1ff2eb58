//! Where the records of tables stand in flash.

ghost use Rattle.std.specs.Prelude.{◌≡◌};
ghost use Rattle.monitor_model.specs.Layout as layout;
ghost use Rattle.monitor_audit.specs.Reach.{IsInReach};

use monitor_constants::number_of_slots;
use monitor_model::Tables;

/// The addresses of the first record of each kind, and of the first initial word.
#[derive(Clone, Copy)]
pub(crate) struct RecordStarts {
    pub(crate) sites: u32,
    pub(crate) targets: u32,
    pub(crate) lends: u32,
    pub(crate) inits: u32,
    pub(crate) words: u32,
}

/// The addresses of these tables.
pub(crate) fn places_of(tables: &Tables) -> RecordStarts
    requires { IsInReach tables.now }
    ensures sites { result.sites ≡ layout.sites_at tables.now }
    ensures targets { result.targets ≡ layout.targets_at tables.now }
    ensures lends { result.lends ≡ layout.lends_at tables.now }
    ensures inits { result.inits ≡ layout.inits_at tables.now }
    ensures words { result.words ≡ layout.initial_words_at tables.now }
{
    let size = (8 * number_of_slots(tables) + 16) as u32;
    let sites = tables.base + 4096 + 32 + size * tables.comps.len() as u32;
    let targets = sites + 12 * tables.sites.len() as u32;
    let lends = targets + 8 * tables.targets.len() as u32;
    let inits = lends + 4 * tables.lends.len() as u32;
    let words = inits + 12 * tables.inits.len() as u32;
    RecordStarts {
        sites,
        targets,
        lends,
        inits,
        words,
    }
}
