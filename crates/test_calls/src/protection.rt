//! Regions of the protection unit, and what it allows.

use machine_protection::power::Pow2;
use machine_protection::region::{Access, Region};
use machine_protection::unit::Mpu;
use machine_protection::words::{Rights, region};
use machine_protection::{MPU_CTRL, MPU_RASR, MPU_RBAR, MPU_RNR, MPU_TYPE};
use std::process::Abort;
use std::test::Fail;

/// A number, the base and the size of a block, the eighths that are taken out, what it is for, and the words of its region.
struct MemoryBlock {
    number: u8,
    base: u32,
    bytes: u32,
    srd: u8,
    rights: Rights,
    words: (u32, u32),
}

#[rattlefmt::skip]
const BLOCKS: &[MemoryBlock] = &[
    MemoryBlock { number: 0, base: 0, bytes: 0x4000_0000, srd: 0, rights: Rights::Background, words: (0x0000_0010, 0x1206_003b) },
    MemoryBlock { number: 1, base: 0x0800_0000, bytes: 2048, srd: 0, rights: Rights::Code, words: (0x0800_0011, 0x0602_0015) },
    MemoryBlock { number: 3, base: 0x2000_f800, bytes: 2048, srd: 0, rights: Rights::Stack, words: (0x2000_f813, 0x1306_0015) },
    MemoryBlock { number: 3, base: 0x2000_f800, bytes: 2048, srd: 0xf0, rights: Rights::Stack, words: (0x2000_f813, 0x1306_f015) },
    MemoryBlock { number: 4, base: 0x4001_2000, bytes: 1024, srd: 0, rights: Rights::Device, words: (0x4001_2014, 0x1301_0013) },
    MemoryBlock { number: 5, base: 0x2000_0400, bytes: 1024, srd: 0, rights: Rights::Ram, words: (0x2000_0415, 0x1306_0013) },
    MemoryBlock { number: 6, base: 0x2000_0c00, bytes: 32, srd: 0, rights: Rights::Ram, words: (0x2000_0c16, 0x1306_0009) },
    MemoryBlock { number: 7, base: 0x2000_0700, bytes: 256, srd: 0, rights: Rights::Ram, words: (0x2000_0717, 0x1306_000f) },
    MemoryBlock { number: 4, base: 0x2000_0c00, bytes: 1024, srd: 0xe0, rights: Rights::Ram, words: (0x2000_0c14, 0x1306_e013) },
    MemoryBlock { number: 4, base: 0x2000_0f00, bytes: 256, srd: 0x80, rights: Rights::Ram, words: (0x2000_0f14, 0x1306_800f) },
];

fn check_block(rt: &impl Abort, block: &MemoryBlock) -> Result<(), Fail> {
    let size = Pow2::new(block.bytes).ok_or("a power of two")?;
    assert!(rt; block.number < 16);
    assert!(rt; size.get() >= 32);
    assert_eq!(rt; block.base % size.get(), 0);
    let (rbar, rasr) = block.words;
    assert_eq!(rt;
        region(block.number, block.base, size, block.srd, block.rights),
        Region { rbar, rasr },
        "region {}",
        block.number
    );
    Ok(())
}

#[test]
fn blocks_have_their_words(rt: HostRuntime) -> Result<(), Fail> {
    for block in BLOCKS {
        check_block(&rt, block)?;
    }
    assert_eq!(rt; Pow2::new(0), None);
    assert_eq!(rt; Pow2::new(96), None);
    Ok(())
}

/// What is written to registers before a table of accesses.
const SETTINGS: &[(u32, u32)] = &[
    (MPU_RBAR, 0x0000_0010),
    (MPU_RASR, 0x1206_003b),
    (MPU_RBAR, 0x2000_0c14),
    (MPU_RASR, 0x1306_0009),
    (MPU_RBAR, 0x2000_0c35),
    (MPU_RASR, 0x1606_0009),
    (MPU_CTRL, 5),
];

/// An address, a width, a kind of access, whether it is privileged, and whether it is allowed.
#[rattlefmt::skip]
const ACCESSES: &[(u32, u8, Access, bool, bool)] = &[
    (0x2000_0c00, 4, Access::Write, false, true),
    (0x2000_0c1c, 4, Access::Write, false, true),
    (0x2000_0bfc, 4, Access::Write, false, false),
    (0x2000_0c20, 4, Access::Write, false, false),
    (0x2000_0c40, 4, Access::Write, false, false),
    (0, 4, Access::Write, false, false),
    (0x3fff_fffc, 4, Access::Write, false, false),
    (0x4000_0000, 4, Access::Write, false, false),
    (0x2000_0c20, 4, Access::Read, false, true),
    (0x2000_0c20, 1, Access::Read, false, true),
    (0x4000_0000, 4, Access::Read, false, false),
    (0x4000_0000, 4, Access::Write, true, true),
    (0, 2, Access::Fetch, true, false),
    (0x2000_0c20, 4, Access::Write, true, false),
];

fn set(rt: &impl Abort, mpu: &mut Mpu, settings: &[(u32, u32)]) {
    for (reg, value) in settings {
        assert!(rt; mpu.write(*reg, *value));
    }
}

#[test]
fn the_highest_region_decides(rt: HostRuntime) {
    let mut mpu = Mpu::new();
    set(&rt, &mut mpu, SETTINGS);
    for (addr, width, kind, privileged, allowed) in ACCESSES {
        assert!(rt; *width == 1 || *width == 2 || *width == 4);
        assert_eq!(rt;
            mpu.allows(*addr, *width, *kind, *privileged),
            *allowed,
            "{addr:08x}"
        );
    }
}

/// A register of a unit of sixteen regions, what is written, and what is then read.
#[rattlefmt::skip]
const KEPT: &[(u32, u32, u32)] = &[
    (MPU_TYPE, 7, 0x1000),
    (MPU_CTRL, 0xffff_ffff, 7),
    (MPU_RBAR, 0x2000_0c1f, 0x2000_0c0f),
    (MPU_RASR, 0xffff_ffff, 0x173f_ff3f),
    (MPU_RNR, 0x1ff, 0xff),
    (MPU_RBAR, 0x2000_0c00, 0),
    (MPU_RASR, 1, 0),
    (MPU_RNR, 15, 15),
    (MPU_RBAR, 0x2000_0c00, 0x2000_0c0f),
];

#[test]
fn registers_read_as_they_keep(rt: HostRuntime) {
    let mut mpu = Mpu::sixteen();
    for (reg, value, kept) in KEPT {
        assert!(rt; mpu.write(*reg, *value));
        assert_eq!(rt; mpu.read(*reg), Some(*kept), "{reg:08x}");
    }
    assert_eq!(rt; Mpu::new().read(MPU_TYPE), Some(0x0800));
    assert_eq!(rt; mpu.read(0xe000_ed14), None);
    assert!(rt; !mpu.write(0xe000_ed14, 0));
}
