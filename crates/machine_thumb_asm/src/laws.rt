//! Laws of assembled code: functions that do nothing, whose contract is the law.

ghost use Rattle.machine_thumb_asm.specs.Decodes.{BytesDecode, BytesFill};

/// The bytes of an assembly whose branches all reach their labels decode to what was put into it, and each branch to
/// one that goes to its label; and they are as many as its pieces take.
pub fn decoding()
    ensures decode { BytesDecode }
    ensures fill { BytesFill }
{}
