// Facts about frames that are worth a name, each in the contract of a function, so that the check asks for its proof.
ghost use Rattle.frames.specs.Fields.{FirstBadTells};
ghost use Rattle.frames.specs.Frames.{ChangeCovered, VotesCovered};
ghost use Rattle.frames.specs.Spelled.{ReadsBack, SameFromSameBytes, SameFromSameFrame};
ghost use Rattle.frames.specs.Worked.{FillsWithColdest, ReadsFirstChange, RefusesColder};
ghost use Rattle.values.specs.Marks.{mark_kind};

use values::kind::QuestionKind;

// One frame, one spelling, whatever kind questions have.
pub fn one_spelling_stands<Q: QuestionKind>()
    ensures back { ReadsBack Q.ValueKind.kind }
    ensures frames { SameFromSameBytes Q.ValueKind.kind }
    ensures bytes { SameFromSameFrame Q.ValueKind.kind }
{}

// The offset of a refusal is that of the field that breaks first.
pub fn first_field_stands()
    ensures { FirstBadTells }
{}

// The tables of fields leave no byte of a frame out, and give none to two fields; here for the kind that a question has.
pub fn fields_cover_stands<Q: QuestionKind>()
    ensures change { ChangeCovered }
    ensures places { VotesCovered mark_kind }
    ensures questions { VotesCovered Q.ValueKind.kind }
{}

// Worked examples of reading.
pub fn worked_frames_stand()
    ensures fills { FillsWithColdest }
    ensures refuses { RefusesColder }
    ensures change { ReadsFirstChange }
{}
