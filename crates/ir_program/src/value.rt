//! Values of a source run.

ghost use Rattle.std.specs.Prelude.{◌≡◌, ℕ, MatchOption};
ghost use Rattle.ir_model.specs.Resolved as plain;
ghost use Rattle.ir_model.specs.State.{NullFault};
ghost use Rattle.ir_model.specs.Step as step;
ghost use Rattle.ir_program.specs.Values.{instance_of, value_of};

/// An object that can be pointed into.
#[derive(Clone, Copy)]
pub enum Instance {
    /// A global, by its number.
    Global(u32),
    /// A peripheral, by its number.
    Periph(u32),
    /// A local of one frame of a function.
    Local {
        /// The local's number.
        local: u8,
        /// The function's number.
        func: u16,
        /// The frame's number.
        frame: u64,
    },
}

/// What a register or a cell holds, in 16 bytes.
#[derive(Clone, Copy)]
pub enum Value {
    /// A number.
    Number(u32),
    /// The address of a function, by its number.
    Code(u16),
    /// The pointer to nothing.
    Null,
    /// The address of a global's byte.
    AtGlobal {
        /// The global's number.
        global: u32,
        /// How many bytes behind its first.
        offset: u32,
    },
    /// The address of a peripheral's byte.
    AtPeriph {
        /// The peripheral's number.
        periph: u32,
        /// How many bytes behind its window's first.
        offset: u32,
    },
    /// The address of a byte of a local of one frame of a function. The fields stand so that they fill 16 bytes.
    AtLocal {
        /// The local's number.
        local: u8,
        /// The function's number.
        func: u16,
        /// How many bytes behind its first.
        offset: u32,
        /// The frame's number.
        frame: u64,
    },
}

/// An address: an object, and how many bytes behind its first.
#[derive(Clone, Copy)]
pub struct Address {
    /// The object.
    pub instance: Instance,
    /// The bytes.
    pub offset: u32,
}

impl Value {
    /// The address of an object's byte, as a value.
    pub fn at(instance: Instance, offset: u32) -> Value
        ensures { value_of result ≡ plain.At (instance_of instance) offset }
    {
        match instance {
            Instance::Global(global) => Value::AtGlobal { global, offset },
            Instance::Periph(periph) => Value::AtPeriph { periph, offset },
            Instance::Local { local, func, frame } => Value::AtLocal {
                local,
                func,
                offset,
                frame,
            },
        }
    }

    /// The address that a value is, or `None` where it is another value.
    pub fn address(self) -> Option<Address>
        ensures { MatchOption result ((go : plain.Instance → ℕ → step.SourceAct) → step.with_pointer (value_of self) go ≡ step.Fails NullFault) (λ a. value_of self ≡ plain.At (instance_of a.instance) a.offset) }
    {
        match self {
            Value::AtGlobal { global, offset } => Some(Address {
                instance: Instance::Global(global),
                offset,
            }),
            Value::AtPeriph { periph, offset } => Some(Address {
                instance: Instance::Periph(periph),
                offset,
            }),
            Value::AtLocal {
                local,
                func,
                offset,
                frame,
            } => Some(Address {
                instance: Instance::Local { local, func, frame },
                offset,
            }),
            Value::Number(_) | Value::Code(_) | Value::Null => None,
        }
    }
}
