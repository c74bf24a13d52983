// Frames and refusals in words.
ghost use Rattle.captures.specs.Words.{after_words, change_words, contribution_words, dotted, fill_words, frame_words, refusal_words};
ghost use Rattle.frames.specs.Clocks.{counts_of, machines_of};
ghost use Rattle.std.specs.Option.{option_map};
ghost use Rattle.std.specs.Prelude.{Some};

use frames::fault::FrameFault;
use frames::frame::{Change, Contribution, Fill, Forerunners, Frame};
use std::fmt::{self, Display};
use values::level::Level;

// A frame, a part of one, or the refusal of bytes that are none: `{}` writes it in the words of a report.
#[derive(Clone, Copy)]
pub struct InWords<'a, T>(pub &'a T);

// Two numbers with a point between, `2.5`: an author and a number, or a machine and a count.
#[derive(Clone, Copy)]
struct Dotted(u8, u8);

impl Display for Dotted {
    ghost output = { λ x. Some (dotted x.0 x.1) };

    fn fmt<W: fmt::Write>(&self, f: &mut fmt::Formatter<W>) -> fmt::Result {
        write!(f, "{}.{}", self.0, self.1)
    }
}

// What a ballot is about, a contribution to it or a fill, and the value of that as it is written.
#[derive(Clone, Copy)]
struct About<'a, T, D>(&'a str, &'a T, D);

impl<V, D: Display> Display for About<'_, Contribution<V>, D> {
    ghost output = { λ x.
        option_map (λ value. contribution_words x.0.now x.1.now.ballot x.1.now.round value x.1.now.sender)
        (D.output x.2) };

    fn fmt<W: fmt::Write>(&self, f: &mut fmt::Formatter<W>) -> fmt::Result {
        let About(subject, c, value) = self;
        let (ballot, round, sender) = (c.ballot, c.round, c.sender);
        write!(
            f,
            "contribution {subject} {ballot} round {round} value {value} from {sender}"
        )
    }
}

// A fill has no round to tell, so its words stand apart: one Display for both would have to ask which it has.
impl<V, D: Display> Display for About<'_, Fill<V>, D> {
    ghost output = { λ x. option_map (λ value. fill_words x.0.now x.1.now.ballot value x.1.now.sender) (D.output x.2) };

    fn fmt<W: fmt::Write>(&self, f: &mut fmt::Formatter<W>) -> fmt::Result {
        let About(subject, fill, value) = self;
        let (ballot, sender) = (fill.ballot, fill.sender);
        write!(f, "fill {subject} {ballot} value {value} from {sender}")
    }
}

// The pairs behind the word for them, or nothing where there are none.
impl Display for InWords<'_, Forerunners> {
    ghost output = { λ x. Some (after_words (machines_of 1 x.0.now.counts) (counts_of x.0.now.counts)) };

    #[tactic(auto, using(std::proofs::lemmas::Grind::common_steps, crate::proofs::Worded::all_after))]
    fn fmt<W: fmt::Write>(&self, f: &mut fmt::Formatter<W>) -> fmt::Result {
        let pairs = self.0.pairs();
        if pairs.is_empty() {
            return Ok(());
        }
        f.write_str(" after")?;
        for pair in pairs.iter() {
            write!(f, " {}", Dotted(pair.machine, pair.count))?;
        }
        Ok(())
    }
}

impl Display for InWords<'_, Change> {
    ghost output = { λ x. Some (change_words x.0.now) };

    fn fmt<W: fmt::Write>(&self, f: &mut fmt::Formatter<W>) -> fmt::Result {
        let change = self.0;
        let (setting, level) = (change.setting, change.level);
        let mark = Dotted(change.author, change.number);
        let after = InWords(&change.forerunners);
        write!(f, "change {mark} setting {setting} level {level}{after}")
    }
}

impl Display for InWords<'_, Frame<Level>> {
    ghost output = { λ x. Some (frame_words x.0.now) };

    fn fmt<W: fmt::Write>(&self, f: &mut fmt::Formatter<W>) -> fmt::Result {
        match self.0 {
            Frame::Change(change) => InWords(change).fmt(f),
            Frame::PlaceContribution(c) => {
                About("place", c, Dotted(c.value.author, c.value.number)).fmt(f)
            }
            Frame::PlaceFill(fill) => {
                About("place", fill, Dotted(fill.value.author, fill.value.number)).fmt(f)
            }
            Frame::QuestionContribution(c) => About("question", c, c.value.0).fmt(f),
            Frame::QuestionFill(fill) => About("question", fill, fill.value.0).fmt(f),
        }
    }
}

impl Display for InWords<'_, FrameFault> {
    ghost output = { λ x. Some (refusal_words x.0.now) };

    fn fmt<W: fmt::Write>(&self, f: &mut fmt::Formatter<W>) -> fmt::Result {
        let fault = *self.0;
        let number = u8::from(fault);
        match fault {
            FrameFault::Kind | FrameFault::Length => write!(f, "refused {number}"),
            FrameFault::Field(offset) => write!(f, "refused {number} offset {offset}"),
        }
    }
}
