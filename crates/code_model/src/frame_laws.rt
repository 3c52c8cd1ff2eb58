//! The parts of a frame are apart. Each function is a law and does nothing.

ghost use Rattle.std.specs.Prelude.{ℕ, ◌≡◌, ◌+◌, ◌<◌, ◌≤◌, ◌%◌, List, length, Some};
ghost use Rattle.std.specs.List.{slice_get, Contains};
ghost use Rattle.ir_model.specs.Plain.{PlainBinding, PlainFunc, PlainFirmware, regs_of, funcs_of};
ghost use Rattle.ir_model.specs.Layout.{Known, known, shape};
ghost use Rattle.ir_model.specs.Frames.{frame_size};
ghost use Rattle.ir_model.specs.Typing.{IsTyped, frame_limit};
ghost use Rattle.code_model.specs.FramePlaces.{register_offset, local_offset, local_offsets, local_sizes, return_offset, Stand};

/// From the stack pointer on stand the registers, of four bytes each, then the locals in order, then the return
/// address, whose four bytes are the frame's last. Each ends before the next begins, and begins at a multiple of 4.
pub fn parts()
    ensures whole { (ks : List Known) (f : PlainFunc) → frame_size ks f % 8 ≡ 0 }
    ensures least { (ks : List Known) (f : PlainFunc) → 8 ≤ frame_size ks f }
    ensures rows { (ks : List Known) (f : PlainFunc) →
        Stand (register_offset (length (regs_of f))) (return_offset ks f) (local_offsets ks f) (local_sizes ks f) }
    ensures offsets { (ks : List Known) (f : PlainFunc) (k : ℕ) (l : PlainBinding) → slice_get f.locals k ≡ Some l →
        slice_get (local_offsets ks f) k ≡ Some (local_offset ks f k) }
    ensures registers { (j k : ℕ) → j < k → register_offset j + 4 ≤ register_offset k }
    ensures registers_first { (ks : List Known) (f : PlainFunc) (j k : ℕ) → j < length (regs_of f) →
        register_offset j + 4 ≤ local_offset ks f k }
    ensures locals { (ks : List Known) (f : PlainFunc) (j k : ℕ) (l : PlainBinding) → slice_get f.locals j ≡ Some l → j < k →
        local_offset ks f j + (shape ks l.ty).size ≤ local_offset ks f k }
    ensures registers_inside { (ks : List Known) (f : PlainFunc) (k : ℕ) → k < length (regs_of f) →
        register_offset k + 4 ≤ return_offset ks f }
    ensures locals_inside { (ks : List Known) (f : PlainFunc) (k : ℕ) (l : PlainBinding) → slice_get f.locals k ≡ Some l →
        local_offset ks f k + (shape ks l.ty).size ≤ return_offset ks f }
    ensures return_last { (ks : List Known) (f : PlainFunc) → return_offset ks f + 4 ≡ frame_size ks f }
    ensures registers_aligned { (k : ℕ) → register_offset k % 4 ≡ 0 }
    ensures return_aligned { (ks : List Known) (f : PlainFunc) → return_offset ks f % 4 ≡ 0 }
    ensures locals_aligned { (ks : List Known) (f : PlainFunc) (k : ℕ) → local_offset ks f k % 4 ≡ 0 }
{}

/// In a firmware that passes its checks each function has a frame of at most 992 bytes.
pub fn checked_frames_fit()
    ensures { (w : PlainFirmware) (f : PlainFunc) → IsTyped w → Contains (funcs_of w) f → frame_size (known w.structs) f ≤ frame_limit }
{}
