// Writing a frame: a record to the bytes that it is spelled in.
ghost use Rattle.std.specs.Prelude.{◌≡◌, ◌+◌, ◌≤◌, ◌++◌, length, take, drop};
ghost use Rattle.frames.specs.Changes.{change_spelling, head_spelling};
ghost use Rattle.frames.specs.Frames.{spelling};
ghost use Rattle.frames.specs.Spelled.{FoundBack};
ghost use Rattle.frames.specs.Votes.{contribution_spelling, fill_spelling};
ghost use Rattle.frames.specs.Writing.{write_answer, written};

use crate::fault::BufferTooShort;
use crate::frame::{Change, Contribution, Fill, Frame};
use crate::pairs::Pairs;
use values::kind::{QuestionKind, ValueKind};

// Puts bytes at the front of the buffer, or refuses where it is too short.
fn put(buffer: &mut [u8], bytes: &[u8]) -> Result<usize, BufferTooShort>
    ensures answer { result ≡ write_answer bytes.now buffer.old }
    ensures after { buffer.new ≡ written bytes.now buffer.old }
{
    if buffer.len() < bytes.len() {
        return Err(BufferTooShort);
    }
    buffer[..bytes.len()].copy_from_slice(bytes);
    Ok(bytes.len())
}

impl<V: ValueKind> Contribution<V> {
    fn bytes(&self) -> [u8; 8]
        ensures { result ≡ contribution_spelling V.ValueKind.kind self.now }
    {
        let [ballot_high, ballot_low] = self.ballot.to_be_bytes();
        let [round_high, round_low] = self.round.to_be_bytes();
        let [high, low] = self.value.write();
        [
            V::CONTRIBUTION,
            self.sender,
            ballot_high,
            ballot_low,
            round_high,
            round_low,
            high,
            low,
        ]
    }
}

impl<V: ValueKind> Fill<V> {
    // A fill has no round, so its bytes stand apart: one function for both would have to leave the round out.
    fn bytes(&self) -> [u8; 6]
        ensures { result ≡ fill_spelling V.ValueKind.kind self.now }
    {
        let [ballot_high, ballot_low] = self.ballot.to_be_bytes();
        let [high, low] = self.value.write();
        [V::FILL, self.sender, ballot_high, ballot_low, high, low]
    }
}

impl Change {
    // The eight bytes before the pairs.
    fn head(&self, pairs: u8) -> [u8; 8]
        ensures { result ≡ head_spelling self.now pairs }
    {
        let [setting_high, setting_low] = self.setting.to_be_bytes();
        let [level_high, level_low] = self.level.to_be_bytes();
        [
            Change::KIND,
            pairs,
            self.author,
            self.number,
            setting_high,
            setting_low,
            level_high,
            level_low,
        ]
    }
}

// Puts bytes into the buffer at an offset, where there is room for them.
fn put_at(buffer: &mut [u8], at: usize, bytes: &[u8])
    requires { at + length bytes.now ≤ length buffer.old }
    ensures { buffer.new ≡ take at buffer.old ++ (bytes.now ++ drop (at + length bytes.now) buffer.old) }
{
    buffer[at..at + bytes.len()].copy_from_slice(bytes);
}

// Puts three parts one behind the other at the front of the buffer, or refuses where it is too short.
fn put_parts(
    buffer: &mut [u8],
    head: &[u8],
    machines: &[u8],
    counts: &[u8],
) -> Result<usize, BufferTooShort>
    requires { length head.now + (length machines.now + length counts.now) ≤ 26 }
    ensures answer { result ≡ write_answer (head.now ++ (machines.now ++ counts.now)) buffer.old }
    ensures after { buffer.new ≡ written (head.now ++ (machines.now ++ counts.now)) buffer.old }
{
    let second = head.len();
    let third = second + machines.len();
    let end = third + counts.len();
    if buffer.len() < end {
        return Err(BufferTooShort);
    }
    put_at(buffer, 0, head);
    put_at(buffer, second, machines);
    put_at(buffer, third, counts);
    Ok(end)
}

// Behind the head of a change stand the machine numbers of all pairs, and behind them their counts. Each part goes straight into the
// buffer: gathered in a vector first, they took more than half as long again.
fn write_change(change: &Change, buffer: &mut [u8]) -> Result<usize, BufferTooShort>
    ensures answer { result ≡ write_answer (change_spelling change.now) buffer.old }
    ensures after { buffer.new ≡ written (change_spelling change.now) buffer.old }
{
    let Pairs {
        len,
        machines,
        counts,
    } = change.forerunners.columns();
    let head = change.head(len as u8);
    put_parts(buffer, &head, &machines[0..len], &counts[0..len])
}

fn write_by_kind<Q: QuestionKind>(
    frame: &Frame<Q>,
    buffer: &mut [u8],
) -> Result<usize, BufferTooShort>
    ensures answer { result ≡ write_answer (spelling Q.ValueKind.kind frame.now) buffer.old }
    ensures after { buffer.new ≡ written (spelling Q.ValueKind.kind frame.now) buffer.old }
{
    match frame {
        Frame::Change(change) => write_change(change, buffer),
        Frame::PlaceContribution(c) => put(buffer, &c.bytes()),
        Frame::PlaceFill(f) => put(buffer, &f.bytes()),
        Frame::QuestionContribution(c) => put(buffer, &c.bytes()),
        Frame::QuestionFill(f) => put(buffer, &f.bytes()),
    }
}

// Writes a frame at the front of the buffer and answers its length. The rest of the buffer stays as it was, and where
// the buffer is too short all of it does. What is written for a frame that there can be reads back as that frame.
pub fn write<Q: QuestionKind>(frame: &Frame<Q>, buffer: &mut [u8]) -> Result<usize, BufferTooShort>
    ensures answer { result ≡ write_answer (spelling Q.ValueKind.kind frame.now) buffer.old }
    ensures after { buffer.new ≡ written (spelling Q.ValueKind.kind frame.now) buffer.old }
    ensures back { FoundBack Q.ValueKind.kind frame.now result buffer.new }
{
    write_by_kind(frame, buffer)
}
