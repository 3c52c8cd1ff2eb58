//! Laws of the definitions: functions without a body, whose contract is the law.

ghost use Rattle.machine_protection.specs.Configured.{KeptListsDecide, KeptListsPermit, KeptUnitsPermitTheSame, EighthsAreClosed, OpenEighthsAreHeld, EachWriteIs, ListsAreWritten};
ghost use Rattle.machine_protection.specs.Laws.{RegionsAreKept, RegionsAreWritten, RegionsGiveTheirRights, RegionsHoldTheirBlocks, RegistersReadBack, TheHighestDecides, WritesKeepTheCount};
ghost use Rattle.machine_protection.specs.Protection.{BytesAreAlike, PermitsIsAllowed};

/// The test of an access answers yes exactly where a region that no higher-numbered one overrules,
/// the background or the switched-off unit allows it.
pub fn permits_is_allowed()
    ensures { PermitsIsAllowed }
{}

/// The bytes of an aligned access of 1, 2 or 4 bytes are decided alike, so the test of the first is the
/// test of all.
pub fn bytes_are_alike()
    ensures { BytesAreAlike }
{}

/// No write changes the number of regions.
pub fn writes_keep_the_count()
    ensures { WritesKeepTheCount }
{}

/// A register reads as far as it keeps what was written; of the two registers of the selected region this holds
/// where there is such a region.
pub fn registers_read_back()
    ensures { RegistersReadBack }
{}

/// The writes of both words of a region, of an address with VALID first, put it into its place and leave all
/// else but the selected number.
pub fn regions_are_written()
    ensures { RegionsAreWritten }
{}

/// What the registers keep of a region holds the same addresses and allows the same accesses.
pub fn regions_are_kept()
    ensures { RegionsAreKept }
{}

/// The region that decides about an address is the highest-numbered that holds it; none decides exactly where
/// none holds it (B3.5.1).
pub fn the_highest_decides()
    ensures { TheHighestDecides }
{}

/// The region for a block holds the addresses of the block whose eighth is not taken out.
pub fn regions_hold_their_blocks()
    ensures { RegionsHoldTheirBlocks }
{}

/// The region for a block allows what its rights say.
pub fn regions_give_their_rights()
    ensures { RegionsGiveTheirRights }
{}

/// The last region that holds an address decides, of a list of regions that the unit keeps. So unprivileged code may
/// do there what that region allows, and nothing where none holds it; and all is permitted as by the words that were
/// written.
pub fn kept_lists_decide()
    ensures deciding { KeptListsDecide }
    ensures unprivileged { KeptListsPermit }
    ensures alike { KeptUnitsPermitTheSame }
{}

/// A region whose SRD has bit i set exactly where i is at least n holds the first n eighths of its block, and no
/// other address (B3.5.9).
pub fn open_eighths_are_held()
    ensures closed { EighthsAreClosed }
    ensures held { OpenEighthsAreHeld }
{}

/// Each write as an equation (B3.5.6 to B3.5.9); and the writes of a list of regions with VALID and the numbers from
/// k on leave the first k as they were, behind them exactly those of the list, and MPU_CTRL.
pub fn writes_are_equations()
    ensures each { EachWriteIs }
    ensures lists { ListsAreWritten }
{}
