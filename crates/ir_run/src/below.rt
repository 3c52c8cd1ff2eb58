//! The frames that wait at their calls.

ghost use Rattle.std.specs.Prelude.{◌≡◌, [], ◌∷◌, ◌++◌, map, Some, MatchOption, OnOk};
ghost use Rattle.std.specs.Option.{option_map, option_copied};
ghost use Rattle.std.proofs.Math.ListN.{get_or, set};
ghost use Rattle.ir_model.specs.State as state;
ghost use Rattle.ir_model.specs.Step as step;
ghost use Rattle.ir_program.specs.Values.{value_of};
ghost use Rattle.ir_run.specs.declared.frame.Frame.{Frame};
ghost use Rattle.ir_run.specs.Acts.{frame_of};
ghost use Rattle.ir_run.specs.Found.{AreOrdered};
ghost use Rattle.ir_run.specs.Places.{HasNext};
ghost use Rattle.ir_run.specs.Reads.{spot_of};

use crate::frame::Frame;
use crate::reads::{FramePlace, standing};
use crate::search::place_of;
use ir_program::value::Value;
use std::alloc::{AllocError, Global};
use std::marker::Model;

/// Frames that wait at their calls, the one that called last first.
pub struct Below {
    frames: Vec<Frame>,
}

impl Drop for Below {
    fn drop(self) {
        let Below { frames: _ } = self;
    }
}

impl Model for Below {
    ghost use Rattle.std.specs.Prelude.{List, reverse, All};
    ghost use Rattle.ir_run.specs.declared.frame.Frame.{Frame};
    ghost use Rattle.ir_run.specs.Places.{HasNext};

    ghost Value = { List Frame };

    ghost view = { λ s. reverse s.frames.items };

    ghost invariant = { λ s. All (λ (f : Frame). HasNext f.place) s.frames.items };
}

impl Below {
    /// No frames.
    pub fn new(alloc: Global) -> Below
        ensures { result ≡ [] }
    {
        Below {
            frames: Vec::new(alloc),
        }
    }

    /// Puts a frame first; gives it back where there is no memory for it.
    pub fn put(&mut self, frame: Frame) -> Option<Frame>
        requires { HasNext frame.place }
        ensures { MatchOption result (self.new ≡ frame ∷ self.old) (λ back. (back ≡ frame) × (self.new ≡ self.old)) }
    {
        match self.frames.push(frame) {
            Ok(()) => None,
            Err(failed) => Some(failed.value),
        }
    }

    /// Takes the first frame.
    pub fn pop(&mut self) -> Option<Frame>
        ensures { MatchOption result (self.old ≡ []) (λ frame. (self.old ≡ frame ∷ self.new) × HasNext frame.place) }
    {
        self.frames.pop()
    }

    /// The frame of a number, where it is one of this function.
    pub fn frame(&self, func: u16, number: u64) -> Option<&Frame>
        requires { AreOrdered (map frame_of self.now) }
        ensures { option_map frame_of (option_copied result) ≡ step.frame_in (map frame_of self.now) func number }
    {
        let frames = self.frames.as_slice();
        match place_of(frames, func, number) {
            Some(place) => Some(&frames[place]),
            None => None,
        }
    }

    /// Puts a value into a cell of a local of the frame of a number.
    pub fn put_cell(&mut self, func: u16, number: u64, local: u8, cell: u32, value: Value)
        requires { AreOrdered (map frame_of self.old) }
        ensures { (held : state.Frame) → step.frame_in (map frame_of self.old) func number ≡ Some held →
            map frame_of self.new ≡ step.with_local (map frame_of self.old) func number local (set (get_or held.locals local []) cell (value_of value)) }
    {
        if let Some(place) = place_of(self.frames.as_slice(), func, number) {
            self.frames[place]
                .locals
                .put(usize::from(local), cell as usize, value);
        }
    }

    /// Puts where each frame stands, in their order.
    pub fn put_spots(&self, spots: &mut Vec<FramePlace>) -> Result<(), AllocError>
        ensures { OnOk result (spots.new.items ≡ spots.old.items ++ map spot_of (map frame_of self.now)) }
    {
        let frames = self.frames.as_slice();
        for i in 0..frames.len() {
            spots.push(standing(&frames[frames.len() - 1 - i]))?;
        }
        Ok(())
    }
}
