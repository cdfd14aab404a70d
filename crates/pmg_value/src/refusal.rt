ghost use Rattle.std.specs.Prelude.{◌≡◌};
ghost use Rattle.pmg_value.specs.declared.refusal.Refusal.TheVariants.{NoMemory, BadFrame};
ghost use Rattle.pmg_value.specs.Refusals.{number_of, name_of, cause_name};

use std::alloc::{AllocError, AllocFailed};
use std::fmt;
use std::fmt::{Display, Formatter, Write};
use thiserror::Error;

/// The first fault of bytes that are read, from the left.
#[derive(Clone, Copy, Debug, PartialEq, Eq, Error)]
pub enum Cause {
    Version,
    Kind,
    Length,
    Short,
    Long,
    Name,
    Rank,
    Range,
    Count,
    Key,
    Order,
    Member,
    Number,
    Level,
    Node,
    Tag,
    Bool,
    Text,
    Size,
    Cut,
    Hex,
    Script,
    Input,
}

/// A fault with its offset, in bytes from the start of the input.
#[derive(Clone, Copy, Debug, PartialEq, Eq, Error)]
#[error("{cause} at {offset}")]
pub struct Fault {
    pub offset: u64,
    pub cause: Cause,
}

/// The reason why a call was refused. A refused call leaves its object as it was. Each refusal has a number, which is this project's own
/// (the standard's statuses are not claimed).
#[derive(Clone, Copy, Debug, PartialEq, Eq, Error)]
pub enum Refusal {
    /// Memory was wanted and not given.
    NoMemory,
    /// An argument is outside its rules.
    BadParam,
    /// Nothing is there under that name.
    NotFound,
    /// The value is there, but its scope does not reach the asker.
    OutsideScope,
    /// No namespace of that name is registered.
    UnknownNamespace,
    /// The process is not of this node.
    NotMine,
    /// The process is in a fence that it has not left, or in a get that it has not taken.
    Busy,
    /// The process has terminated.
    Terminated,
    /// The process is not a participant of the fence that it would enter.
    NotAParticipant,
    /// A limit would be passed.
    TooMany,
    /// The bytes are not a frame: the first fault.
    BadFrame(Fault),
    /// The name is taken.
    Exists,
    /// Two accounts of the same events differ.
    Collision,
    /// A reply on replay differs from the recorded one.
    Stale,
    /// No order puts each delivery after its sending.
    Unordered,
    /// The object is closed, and stays so.
    Closed,
}

impl Refusal {
    /// Returns the refusal of bytes with that fault at that offset.
    pub fn bad_frame(offset: u64, cause: Cause) -> Refusal
        ensures { result ≡ BadFrame (record { offset = offset; cause = cause }) }
    {
        Refusal::BadFrame(Fault { offset, cause })
    }

    /// Returns the refusal's number, 0 to 15.
    pub fn number(&self) -> u8
        ensures { result ≡ number_of self.now }
    {
        match self {
            Refusal::NoMemory => 0,
            Refusal::BadParam => 1,
            Refusal::NotFound => 2,
            Refusal::OutsideScope => 3,
            Refusal::UnknownNamespace => 4,
            Refusal::NotMine => 5,
            Refusal::Busy => 6,
            Refusal::Terminated => 7,
            Refusal::NotAParticipant => 8,
            Refusal::TooMany => 9,
            Refusal::BadFrame(_) => 10,
            Refusal::Exists => 11,
            Refusal::Collision => 12,
            Refusal::Stale => 13,
            Refusal::Unordered => 14,
            Refusal::Closed => 15,
        }
    }

    /// Returns the refusal's name.
    pub fn name(&self) -> &'static str
        ensures { result.now ≡ name_of self.now }
    {
        match self {
            Refusal::NoMemory => "NoMemory",
            Refusal::BadParam => "BadParam",
            Refusal::NotFound => "NotFound",
            Refusal::OutsideScope => "OutsideScope",
            Refusal::UnknownNamespace => "UnknownNamespace",
            Refusal::NotMine => "NotMine",
            Refusal::Busy => "Busy",
            Refusal::Terminated => "Terminated",
            Refusal::NotAParticipant => "NotAParticipant",
            Refusal::TooMany => "TooMany",
            Refusal::BadFrame(_) => "BadFrame",
            Refusal::Exists => "Exists",
            Refusal::Collision => "Collision",
            Refusal::Stale => "Stale",
            Refusal::Unordered => "Unordered",
            Refusal::Closed => "Closed",
        }
    }
}

impl Cause {
    /// Returns the cause's name.
    pub fn name(&self) -> &'static str
        ensures { result.now ≡ cause_name self.now }
    {
        match self {
            Cause::Version => "Version",
            Cause::Kind => "Kind",
            Cause::Length => "Length",
            Cause::Short => "Short",
            Cause::Long => "Long",
            Cause::Name => "Name",
            Cause::Rank => "Rank",
            Cause::Range => "Range",
            Cause::Count => "Count",
            Cause::Key => "Key",
            Cause::Order => "Order",
            Cause::Member => "Member",
            Cause::Number => "Number",
            Cause::Level => "Level",
            Cause::Node => "Node",
            Cause::Tag => "Tag",
            Cause::Bool => "Bool",
            Cause::Text => "Text",
            Cause::Size => "Size",
            Cause::Cut => "Cut",
            Cause::Hex => "Hex",
            Cause::Script => "Script",
            Cause::Input => "Input",
        }
    }
}

impl Display for Cause {
    fn fmt<W: Write>(&self, f: &mut Formatter<W>) -> fmt::Result {
        f.write_str(self.name())
    }
}

/// The number and the name, and the fault if there is one, as `9 TooMany` and `10 BadFrame: Hex at 3`.
impl Display for Refusal {
    fn fmt<W: Write>(&self, f: &mut Formatter<W>) -> fmt::Result {
        write!(f, "{} {}", self.number(), self.name())?;
        match self {
            Refusal::BadFrame(fault) => write!(f, ": {fault}"),
            _ => Ok(()),
        }
    }
}

impl From<AllocError> for Refusal {
    ghost from_gives = { λ _ e. e ≡ NoMemory };

    fn from(_e: AllocError) -> Refusal {
        Refusal::NoMemory
    }
}

impl<T: Drop> From<AllocFailed<T>> for Refusal {
    ghost from_gives = { λ _ e. e ≡ NoMemory };

    fn from(_e: AllocFailed<T>) -> Refusal {
        Refusal::NoMemory
    }
}
