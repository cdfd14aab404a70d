//! The text of a refusal and of its fault.
ghost use Rattle.std.specs.Prelude.{OnErr, IsSome};
ghost use Rattle.pmg_value.specs.RefusalText.{fault_text, detail_text, refusal_text};
ghost use Rattle.pmg_value.specs.Written.{Writes};

use super::refusal::{Fault, Refusal};
use super::written::{WatchedWriter, WriteFault};
use std::io::Write;

impl Fault {
    /// Writes the cause and the offset, as `Hex at 3`. Fails as `put_text` does.
    #[tactic(auto, using(crate::proofs::WrittenLemmas::written_in_parts), unfolding(crate::specs::RefusalText::fault_text))]
    pub fn write_text<W: Write>(&self, writer: &mut WatchedWriter<W>) -> Result<(), WriteFault>
        ensures text { Writes (W.contents writer.old.writer) (W.contents writer.new.writer)
            result (fault_text self.now) }
        ensures failed { OnErr result (IsSome writer.new.failure) }
    {
        writer.put_text(self.cause.name().as_bytes())?;
        writer.put_text(b" at ")?;
        writer.put_number(self.offset)
    }
}

impl Refusal {
    /// Writes the number and the name, as `9 TooMany`, and after them the fault if there is one, as `10 BadFrame: Hex at 3`. Fails as
    /// `put_text` does.
    #[tactic(auto, using(crate::proofs::WrittenLemmas::written_in_parts), unfolding(crate::specs::RefusalText::refusal_text))]
    pub fn write_text<W: Write>(&self, writer: &mut WatchedWriter<W>) -> Result<(), WriteFault>
        ensures text { Writes (W.contents writer.old.writer) (W.contents writer.new.writer)
            result (refusal_text self.now) }
        ensures failed { OnErr result (IsSome writer.new.failure) }
    {
        writer.put_number(self.number() as u64)?;
        writer.put_text(b" ")?;
        writer.put_text(self.name().as_bytes())?;
        self.write_detail(writer)
    }

    /// Writes the text after the name: the fault, if there is one.
    #[tactic(auto, using(crate::proofs::WrittenLemmas::written_in_parts), unfolding(crate::specs::RefusalText::detail_text))]
    fn write_detail<W: Write>(&self, writer: &mut WatchedWriter<W>) -> Result<(), WriteFault>
        ensures text { Writes (W.contents writer.old.writer) (W.contents writer.new.writer)
            result (detail_text self.now) }
        ensures failed { OnErr result (IsSome writer.new.failure) }
    {
        match self {
            Refusal::BadFrame(fault) => {
                writer.put_text(b": ")?;
                fault.write_text(writer)
            }
            _ => Ok(()),
        }
    }
}
