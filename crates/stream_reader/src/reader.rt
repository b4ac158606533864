//! A stream is read in pieces.
ghost use Rattle.std.specs.Prelude.{
  ◌≡◌,
  ◌≤◌,
  ◌<◌,
  ◌+◌,
  ◌++◌,
  ◌^◌,
  ℕ,
  [],
  Bool,
  Err,
  IfErr,
  IfOk,
  List,
  Ok,
  OnOk,
  bytes_eq,
  length,
  take,
  true,
};
ghost use Rattle.plain_model.specs.declared.event.PlainEvent.{PlainEvent};
ghost use Rattle.plain_model.specs.Paths.{Bytes};
ghost use Rattle.line_automaton.specs.Machine.{all, closed, verdict};
ghost use Rattle.line_automaton.specs.Machine.Machine.{At};
ghost use Rattle.line_automaton.specs.Machine.Mode.{After, InBlock, InDelimited, InLine};
ghost use Rattle.line_automaton.proofs.FirstLines.{inside_after};
ghost use Rattle.stream_grammar.specs.declared.lines.Word.TheVariants as word;
ghost use Rattle.stream_grammar.specs.Limits.{known_given, stream_of, stream_within};
ghost use Rattle.stream_grammar.specs.Lines.{data_arrived, next_of};
ghost use Rattle.production_laws.specs.Streams.{IsStreamOf};
ghost use Rattle.stream_reader.specs.Answers.{IsFaultOf, IsOfNoStream};
ghost use Rattle.stream_reader.specs.Reading.{
  HasCome,
  HasRead,
  IsAt,
  Leads,
  Makes,
  StreamMachine,
  after,
  after_compared,
  after_line,
  at_start,
  begins_with_lf,
  goes,
  has_begun,
  in_line,
  is_between_lines,
  is_some_text,
  placed,
  reported,
  state,
  stayed,
};

use crate::fault::ReadFault;
use crate::first_bytes::word_of;
use crate::place::Place;
use plain_model::{EventList, Items, Text, Why};
use production_laws::what_is_given_is_spelled;
use std::alloc::Global;
use std::marker::Model;
use std::mem;
use stream_builder::{Builder, LineFault};
use stream_drafts::FinishFault;
use stream_fields::{Extent, count_line_ends, cut, extent_up_to};
use stream_grammar::{Expected, Standing, Word, is_comment, limit_number};

/// A reader takes fewer bytes than this in all: no more fit into a memory. (own)
const MAX_BYTES: u64 = 1 << 63;

/// A block of more bytes than this is never whole. (own)
const MAX_COUNT: u64 = 1 << 63;

// The fault of a line by its number.
fn in_line(line: u64, fault: LineFault) -> ReadFault
    ensures { result ≡ in_line line fault }
{
    match fault {
        LineFault::Bad(why) => ReadFault::BadStream { line, why },
        LineFault::Limit(which) => ReadFault::Limit {
            which,
            number: limit_number(which),
        },
        LineFault::Memory => ReadFault::Memory,
    }
}

/// Reads a stream in pieces of any sizes, the same for every cutting.
#[derive(Drop)]
pub struct StreamReader {
    alloc: Global,
    builder: Builder,
    // Where the stream is between two lines.
    standing: Standing,
    place: Place,
    // The number of the line that the next byte is in, from 1.
    number: u64,
    // How many bytes have come.
    come: u64,
}

impl Model for StreamReader {
    ghost use Rattle.std.specs.Prelude.{◌≤◌, ◌<◌, ◌+◌, ◌^◌};
    ghost use Rattle.stream_reader.specs.Reading.{Reading};

    ghost Value = { Reading };

    ghost view = { λ r. record {
      place = r.place;
      standing = r.standing;
      number = r.number;
      known = r.builder;
      come = r.come;
    } };

    ghost invariant = { λ r. (r.number ≤ r.come + 1) × (r.come < 2 ^ 63) };
}

// More of a line that doesn't end.
fn more_of_line(mut begun: Text, part: &[u8]) -> Result<Place, ReadFault>
    ensures { Makes result (Place.Line (begun ++ part.now)) }
{
    begun.push_all(part)?;
    Ok(Place::Line { begun })
}

// More of a block that isn't whole.
fn more_of_block(from: u64, more: u64, mut bytes: Text, part: &[u8]) -> Result<Place, ReadFault>
    ensures { Makes result (Place.Block from more (bytes ++ part.now)) }
{
    bytes.push_all(part)?;
    Ok(Place::Block { from, more, bytes })
}

// More of a line of a block up to a delimiter.
fn more_of_delimited(
    from: u64,
    delimiter: Text,
    bytes: Text,
    mut begun: Text,
    part: &[u8],
) -> Result<Place, ReadFault>
    ensures { Makes result (Place.DelimitedBlock from delimiter bytes (begun ++ part.now)) }
{
    begun.push_all(part)?;
    Ok(Place::DelimitedBlock {
        from,
        delimiter,
        bytes,
        begun,
    })
}

// Whether something has come after the last LF of a part, which has a byte.
fn is_inside_after(part: &[u8]) -> bool
    requires { 0 < length part.now }
    ensures { result ≡ inside_after true part.now }
{
    match part.last() {
        Some(last) => *last != b'\n',
        None => true,
    }
}

fn begins_with_lf(rest: &[u8]) -> bool
    ensures { result ≡ begins_with_lf rest.now }
{
    match rest {
        [first, ..] => *first == b'\n',
        [] => false,
    }
}

fn are_same(left: &[u8], right: &[u8]) -> bool
    ensures { result ≡ bytes_eq left.now right.now }
{
    left == right
}

fn is_some_text(text: &[u8]) -> bool
    ensures { result ≡ is_some_text text.now }
{
    !text.is_empty()
}

// Whether the next byte is the first of a line.
fn is_between_lines(place: &Place) -> bool
    ensures { result ≡ is_between_lines place.now }
{
    match place {
        Place::Line { begun } => !is_some_text(begun.as_slice()),
        _ => false,
    }
}

impl StreamReader {
    /// Before the first byte.
    pub fn new(alloc: Global) -> StreamReader
        ensures { HasCome result at_start }
    {
        StreamReader {
            alloc,
            builder: Builder::new(alloc),
            standing: Standing {
                expected: Expected::Event,
                wants_done: false,
            },
            place: Place::Line {
                begun: Items::empty(alloc),
            },
            number: 1,
            come: 0,
        }
    }

    // The next byte is there from now on. It stays a function of its own, since to let go of the place before takes room on the
    // stack, which would be made ready for each line.
    #[inline(never)]
    fn go_on_at(&mut self, place: Place)
        ensures { self.new ≡ record self.old { place = place } }
    {
        self.place = place;
    }

    // Where the next byte is, unless a line was refused.
    fn go_to(&mut self, leads: Result<Place, ReadFault>)
        ensures { self.new ≡ record self.old { place = placed leads } }
    {
        self.place = match leads {
            Ok(place) => place,
            Err(fault) => Place::Refused(fault),
        };
    }

    // A line was refused. It stays a function of its own, so that `stay` is a test and nothing more.
    #[inline(never)]
    fn refuse(&mut self, fault: ReadFault)
        ensures { self.new ≡ record self.old { place = placed (Err fault) } }
    {
        self.place = Place::Refused(fault);
    }

    // The place is as it is, unless a line was refused.
    fn stay(&mut self, ended: Result<(), ReadFault>)
        ensures { self.new ≡ record self.old { place = placed (stayed self.old.place ended) } }
    {
        if let Err(fault) = ended {
            self.refuse(fault);
        }
    }

    // What follows a line of data.
    fn end_data(&mut self, line: &[u8]) -> Result<Place, ReadFault>
        ensures standing { self.new.standing ≡ self.old.standing }
        ensures number { self.new.number ≡ self.old.number }
        ensures come { self.new.come ≡ self.old.come }
        ensures leads { (spelled : List Bytes) →
            Leads self.new.standing self.new.known (self.old.number + 1) self.old.come result
            (goes self.old.number line.now (state self.old.standing spelled self.old.known)
            (next_of word.Data line.now)) }
    {
        let from = self.number;
        match extent_up_to(MAX_COUNT, line) {
            Ok(Extent::Counted(0)) => {
                self.builder.take_block(
                    self.alloc,
                    self.standing.is_inline(),
                    Items::empty(self.alloc),
                )?;
                Ok(Place::AfterBlock { in_line: false })
            }
            Ok(Extent::Counted(count)) => Ok(Place::Block {
                from,
                more: count - 1,
                bytes: Items::empty(self.alloc),
            }),
            Ok(Extent::Longer) => Ok(Place::EndlessBlock { from }),
            Ok(Extent::Delimited(delimiter)) => Ok(Place::DelimitedBlock {
                from,
                delimiter: Items::of(self.alloc, delimiter)?,
                bytes: Items::empty(self.alloc),
                begun: Items::empty(self.alloc),
            }),
            Err(why) => Err(ReadFault::BadStream { line: from, why }),
        }
    }

    // A line has come whole. Mostly the next byte is the first of a line again, and the place stays.
    fn end_line(&mut self, line: &[u8]) -> Result<(), ReadFault>
        requires { is_between_lines self.old.place ≡ true }
        ensures number { self.new.number ≡ self.old.number }
        ensures come { self.new.come ≡ self.old.come }
        ensures leads { (spelled : List Bytes) →
            Leads self.new.standing self.new.known (self.old.number + 1) self.old.come
            (stayed self.new.place result)
            (after_line self.old.number (state self.old.standing spelled self.old.known) line.now) }
    {
        if is_comment(line) {
            return Ok(());
        }
        let word = word_of(line);
        self.standing = match self.standing.after(word) {
            Ok(after) => after,
            Err(why) => {
                return Err(ReadFault::BadStream {
                    line: self.number,
                    why,
                });
            }
        };
        match word {
            Word::Data => match self.end_data(line) {
                Ok(place) => {
                    self.go_on_at(place);
                    Ok(())
                }
                Err(fault) => Err(fault),
            },
            Word::Done => {
                self.go_on_at(Place::Over);
                Ok(())
            }
            _ => match self.builder.judge(self.alloc, word, line) {
                Ok(()) => Ok(()),
                Err(fault) => Err(in_line(self.number, fault)),
            },
        }
    }

    // The rest of a line that has begun.
    fn end_begun(&mut self, mut begun: Text, part: &[u8]) -> Result<(), ReadFault>
        requires { is_between_lines self.old.place ≡ true }
        ensures number { self.new.number ≡ self.old.number }
        ensures come { self.new.come ≡ self.old.come }
        ensures leads { (spelled : List Bytes) →
            Leads self.new.standing self.new.known (self.old.number + 1) self.old.come
            (stayed self.new.place result)
            (after_line self.old.number (state self.old.standing spelled self.old.known)
            (begun ++ part.now)) }
    {
        if !is_some_text(begun.as_slice()) {
            return self.end_line(part);
        }
        begun.push_all(part)?;
        self.end_line(begun.as_slice())
    }

    // More of a line, up to its end.
    fn take_line(&mut self, begun: Text, rest: &[u8]) -> usize
        requires some { 0 < length rest.now }
        requires room { self.old.come + length rest.now < 2 ^ 63 }
        requires place { is_between_lines self.old.place ≡ true }
        ensures count { (1 ≤ result) × (result ≤ length rest.now) }
        ensures come { self.new.come ≡ self.old.come + result }
        ensures reads { (m : StreamMachine) →
            IsAt self.old.standing self.old.known self.old.number (InLine begun) m →
            HasCome self.new (after m (take result rest.now)) }
    {
        match cut(b'\n', rest) {
            Some((part, _)) => {
                self.come += part.len() as u64 + 1;
                let ended = self.end_begun(begun, part);
                self.number += 1;
                self.stay(ended);
                part.len() + 1
            }
            None => {
                self.come += rest.len() as u64;
                self.go_to(more_of_line(begun, rest));
                rest.len()
            }
        }
    }

    // A line from its first byte on, up to its end.
    fn begin_line(&mut self, rest: &[u8]) -> usize
        requires some { 0 < length rest.now }
        requires room { self.old.come + length rest.now < 2 ^ 63 }
        requires place { is_between_lines self.old.place ≡ true }
        ensures count { (1 ≤ result) × (result ≤ length rest.now) }
        ensures come { self.new.come ≡ self.old.come + result }
        ensures reads { (m : StreamMachine) →
            IsAt self.old.standing self.old.known self.old.number (InLine []) m →
            HasCome self.new (after m (take result rest.now)) }
    {
        let Some((line, _)) = cut(b'\n', rest) else {
            return self.take_line(Items::empty(self.alloc), rest);
        };
        self.come += line.len() as u64 + 1;
        let ended = self.end_line(line);
        self.number += 1;
        self.stay(ended);
        line.len() + 1
    }

    // A block that has come whole.
    fn end_block(&mut self, mut bytes: Text, part: &[u8]) -> Result<Place, ReadFault>
        requires { 0 < length part.now }
        ensures number { self.new.number ≡ self.old.number }
        ensures come { self.new.come ≡ self.old.come }
        ensures leads { (n : ℕ) → (spelled : List Bytes) →
            Leads self.new.standing self.new.known n self.old.come result
            (At n (After (inside_after true part.now))
            (data_arrived (state self.old.standing spelled self.old.known) (bytes ++ part.now))) }
    {
        bytes.push_all(part)?;
        self.builder
            .take_block(self.alloc, self.standing.is_inline(), bytes)?;
        Ok(Place::AfterBlock {
            in_line: is_inside_after(part),
        })
    }

    // More of a block of so many bytes.
    fn take_counted(&mut self, from: u64, more: u64, bytes: Text, rest: &[u8]) -> usize
        requires some { 0 < length rest.now }
        requires room { self.old.come + length rest.now < 2 ^ 63 }
        ensures count { (1 ≤ result) × (result ≤ length rest.now) }
        ensures come { self.new.come ≡ self.old.come + result }
        ensures reads { (m : StreamMachine) →
            IsAt self.old.standing self.old.known self.old.number (InBlock from more bytes) m →
            HasCome self.new (after m (take result rest.now)) }
    {
        if rest.len() as u64 <= more {
            self.come += rest.len() as u64;
            self.number += count_line_ends(rest) as u64;
            self.go_to(more_of_block(from, more - rest.len() as u64, bytes, rest));
            return rest.len();
        }
        let part = &rest[..more as usize + 1];
        self.come += part.len() as u64;
        let leads = self.end_block(bytes, part);
        self.number += count_line_ends(part) as u64;
        self.go_to(leads);
        part.len()
    }

    // What is after a block.
    fn leave_block(&mut self, rest: &[u8]) -> usize
        requires some { 0 < length rest.now }
        requires room { self.old.come + length rest.now < 2 ^ 63 }
        requires place { is_between_lines self.old.place ≡ true }
        ensures count { (1 ≤ result) × (result ≤ length rest.now) }
        ensures come { self.new.come ≡ self.old.come + result }
        ensures reads { (in_line : Bool) → (m : StreamMachine) →
            IsAt self.old.standing self.old.known self.old.number (After in_line) m →
            HasCome self.new (after m (take result rest.now)) }
    {
        if !begins_with_lf(rest) {
            return self.take_line(Items::empty(self.alloc), rest);
        }
        self.come += 1;
        self.number += 1;
        1
    }

    // A line of a block up to a delimiter has come whole.
    fn end_delimited(
        &mut self,
        from: u64,
        delimiter: Text,
        mut bytes: Text,
        line: &[u8],
    ) -> Result<Place, ReadFault>
        ensures number { self.new.number ≡ self.old.number }
        ensures come { self.new.come ≡ self.old.come }
        ensures leads { (spelled : List Bytes) →
            Leads self.new.standing self.new.known (self.old.number + 1) self.old.come result
            (after_compared self.old.number from delimiter bytes line.now
            (state self.old.standing spelled self.old.known)) }
    {
        if are_same(line, delimiter.as_slice()) {
            self.builder
                .take_block(self.alloc, self.standing.is_inline(), bytes)?;
            return Ok(Place::AfterBlock { in_line: false });
        }
        bytes.push_all(line)?;
        bytes.push(b'\n')?;
        Ok(Place::DelimitedBlock {
            from,
            delimiter,
            bytes,
            begun: Items::empty(self.alloc),
        })
    }

    // The rest of a line of such a block that has begun.
    fn end_begun_delimited(
        &mut self,
        from: u64,
        delimiter: Text,
        bytes: Text,
        mut begun: Text,
        part: &[u8],
    ) -> Result<Place, ReadFault>
        ensures number { self.new.number ≡ self.old.number }
        ensures come { self.new.come ≡ self.old.come }
        ensures leads { (spelled : List Bytes) →
            Leads self.new.standing self.new.known (self.old.number + 1) self.old.come result
            (after_compared self.old.number from delimiter bytes (begun ++ part.now)
            (state self.old.standing spelled self.old.known)) }
    {
        if !is_some_text(begun.as_slice()) {
            return self.end_delimited(from, delimiter, bytes, part);
        }
        begun.push_all(part)?;
        self.end_delimited(from, delimiter, bytes, begun.as_slice())
    }

    // More of a block up to a delimiter, up to the end of a line.
    fn take_delimited(
        &mut self,
        from: u64,
        delimiter: Text,
        bytes: Text,
        begun: Text,
        rest: &[u8],
    ) -> usize
        requires some { 0 < length rest.now }
        requires room { self.old.come + length rest.now < 2 ^ 63 }
        ensures count { (1 ≤ result) × (result ≤ length rest.now) }
        ensures come { self.new.come ≡ self.old.come + result }
        ensures reads { (m : StreamMachine) → IsAt self.old.standing self.old.known self.old.number
            (InDelimited from delimiter bytes begun) m →
            HasCome self.new (after m (take result rest.now)) }
    {
        match cut(b'\n', rest) {
            Some((part, _)) => {
                self.come += part.len() as u64 + 1;
                let leads = self.end_begun_delimited(from, delimiter, bytes, begun, part);
                self.number += 1;
                self.go_to(leads);
                part.len() + 1
            }
            None => {
                self.come += rest.len() as u64;
                self.go_to(more_of_delimited(from, delimiter, bytes, begun, rest));
                rest.len()
            }
        }
    }

    // All of the rest is passed over; the place stays.
    fn pass_over(&mut self, place: Place, rest: &[u8]) -> usize
        requires { self.old.come + length rest.now < 2 ^ 63 }
        ensures count { result ≡ length rest.now }
        ensures place { self.new ≡ record self.old {
          place = place;
          come = self.old.come + length rest.now;
        } }
    {
        self.come += rest.len() as u64;
        self.place = place;
        rest.len()
    }

    // Takes a byte or more where the next one isn't the first of a line, and says how many. It stays a function of its own, so
    // that what it keeps on the stack isn't made ready for each line.
    #[inline(never)]
    fn take_within(&mut self, rest: &[u8]) -> usize
        requires some { 0 < length rest.now }
        requires room { self.old.come + length rest.now < 2 ^ 63 }
        ensures count { (1 ≤ result) × (result ≤ length rest.now) }
        ensures come { self.new.come ≡ self.old.come + result }
        ensures reads { (m : StreamMachine) → HasCome self.old m →
            HasCome self.new (after m (take result rest.now)) }
    {
        let between = Place::Line {
            begun: Items::empty(self.alloc),
        };
        match mem::replace(&mut self.place, between) {
            Place::Line { begun } => self.take_line(begun, rest),
            Place::Block { from, more, bytes } => self.take_counted(from, more, bytes, rest),
            Place::AfterBlock { .. } => self.leave_block(rest),
            Place::DelimitedBlock {
                from,
                delimiter,
                bytes,
                begun,
            } => self.take_delimited(from, delimiter, bytes, begun, rest),
            Place::EndlessBlock { from } => self.pass_over(Place::EndlessBlock { from }, rest),
            Place::Over => self.pass_over(Place::Over, rest),
            Place::Refused(fault) => self.pass_over(Place::Refused(fault), rest),
        }
    }

    // Takes a byte or more, and says how many.
    fn take(&mut self, rest: &[u8]) -> usize
        requires some { 0 < length rest.now }
        requires room { self.old.come + length rest.now < 2 ^ 63 }
        ensures count { (1 ≤ result) × (result ≤ length rest.now) }
        ensures come { self.new.come ≡ self.old.come + result }
        ensures reads { (m : StreamMachine) → HasCome self.old m →
            HasCome self.new (after m (take result rest.now)) }
    {
        if is_between_lines(&self.place) {
            self.begin_line(rest)
        } else {
            self.take_within(rest)
        }
    }

    // The first line that was refused, if one was.
    fn answer(&self) -> Result<(), ReadFault>
        ensures { result ≡ reported self.now.place }
    {
        match &self.place {
            Place::Refused(fault) => Err(*fault),
            _ => Ok(()),
        }
    }

    /// Reads more bytes. After a refusal it gives the same fault again. (git-fast-import, "Input format"; the kinds of defects
    /// and the limits: own.)
    pub fn feed(&mut self, piece: &[u8]) -> Result<(), ReadFault>
        ensures reads { (m : StreamMachine) → HasCome self.old m → HasCome self.new (after m piece.now) }
        ensures text { (bytes : Bytes) → HasRead self.old bytes → HasRead self.new (bytes ++ piece.now) }
        ensures answer { result ≡ reported self.new.place }
    {
        if piece.len() as u64 >= MAX_BYTES - self.come {
            self.place = Place::Refused(ReadFault::Memory);
            return Err(ReadFault::Memory);
        }
        let mut at = 0;
        while at < piece.len() {
            at += self.take(&piece[at..]);
        }
        self.answer()
    }

    // Whether something has come of a line, which the end of the stream ends.
    fn has_begun(&self) -> bool
        ensures { result ≡ has_begun self.now.place }
    {
        match &self.place {
            Place::Line { begun } => is_some_text(begun.as_slice()),
            Place::DelimitedBlock { begun, .. } => is_some_text(begun.as_slice()),
            _ => false,
        }
    }

    // The last line ends where the stream does.
    fn close(&mut self) -> Result<(), ReadFault>
        ensures reads { (m : StreamMachine) → HasCome self.old m → HasCome self.new (closed stream_within all m) }
        ensures answer { result ≡ reported self.new.place }
    {
        if self.has_begun() {
            self.feed(b"\n")
        } else {
            self.answer()
        }
    }

    // Whether the stream can end here.
    fn check_end(&self) -> Result<(), ReadFault>
        ensures ok { OnOk result ((m : StreamMachine) → HasCome self.now m →
            known_given (verdict stream_within m) ≡ Ok self.now.known) }
        ensures fault { IfErr result (λ fault. (m : StreamMachine) → HasCome self.now m →
            IsFaultOf (known_given (verdict stream_within m)) fault) }
    {
        let line = match &self.place {
            Place::Line { .. } if self.standing.must_go_on() => self.number,
            Place::AfterBlock { in_line } if self.standing.must_go_on() => {
                if *in_line {
                    self.number + 1
                } else {
                    self.number
                }
            }
            Place::Block { from, .. }
            | Place::EndlessBlock { from }
            | Place::DelimitedBlock { from, .. } => *from,
            _ => return self.answer(),
        };
        Err(ReadFault::BadStream {
            line,
            why: Why::Truncated,
        })
    }

    /// The history of the stream that has come. The fault at the lowest line wins, at one line a defect before a limit; that the
    /// marks are spent comes last.
    pub fn finish(mut self) -> Result<EventList, ReadFault>
        ensures list { IfOk result
            (λ list. (bytes : Bytes) → HasRead self bytes → stream_of bytes ≡ Ok list) }
        ensures fault { IfErr result
            (λ fault. (bytes : Bytes) → HasRead self bytes → IsFaultOf (stream_of bytes) fault) }

        // The same by the productions: the text spells events that have this history, or none that have one.
        ensures stream { IfOk result
            (λ list. (bytes : Bytes) → HasRead self bytes → IsStreamOf bytes list) }
        ensures only { IfOk result (λ list. (bytes : Bytes) → HasRead self bytes →
            (events : List PlainEvent) → IsStreamOf bytes events → list ≡ events) }
        ensures refused { IfErr result
            (λ fault. (bytes : Bytes) → HasRead self bytes → IsOfNoStream bytes fault) }
    {
        what_is_given_is_spelled();
        if let Err(fault) = self.close() {
            return Err(fault);
        }
        if let Err(fault) = self.check_end() {
            return Err(fault);
        }
        match self.builder.finish(self.alloc) {
            Ok(list) => Ok(list),
            Err(FinishFault::MarksSpent) => Err(ReadFault::MarksSpent),
            Err(FinishFault::Memory) => Err(ReadFault::Memory),
        }
    }
}

/// Reads a stream at once.
pub fn read_stream(alloc: Global, text: &[u8]) -> Result<EventList, ReadFault>
    ensures list { IfOk result (λ list. stream_of text.now ≡ Ok list) }
    ensures fault { IfErr result (IsFaultOf (stream_of text.now)) }

    // The same by the productions: the text spells events that have this history and no others, or none that have one.
    ensures stream { IfOk result (λ list. IsStreamOf text.now list) }
    ensures only { IfOk result (λ list. (events : List PlainEvent) →
        IsStreamOf text.now events → list ≡ events) }
    ensures refused { IfErr result (IsOfNoStream text.now) }
{
    what_is_given_is_spelled();
    let mut reader = StreamReader::new(alloc);
    if let Err(fault) = reader.feed(text) {
        return Err(fault);
    }
    reader.finish()
}
