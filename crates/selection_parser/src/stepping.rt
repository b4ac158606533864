//! What a byte does to a reader.
ghost use Rattle.std.specs.Prelude.{◌≡◌, ◌+◌, ◌<◌, ◌^◌, [], ◌∷◌, Some, IfOk};
ghost use Rattle.selection_parser.specs.Readers.{
  parts_of,
  frame_of,
  frames_of,
  state_of,
  reader_of,
  next_of,
};
ghost use Rattle.selection_parser.specs.Reading.{
  no_parts,
  before_term,
  has_room,
  negated,
  around,
  closed,
  ended,
  with_term,
  with_part,
  after_term,
  after_near,
  called_by,
  or_after,
  or_else,
  nesting,
  reader_at,
  inside,
  step,
  times_of,
};
ghost use Rattle.selection_parser.specs.Reading.Next.{Goes};
ghost use Rattle.selection_parser.specs.Reading.State.{Inside};
ghost use Rattle.selection_parser.specs.declared.place.Place.TheVariants.{InName};
ghost use Rattle.selection_parser.specs.Views.{plain_of};

use crate::function::Function;
use crate::inside::{Progress, inside};
use crate::joining::{both_of, called, near, whole};
use crate::place::Place;
use crate::reader::{Frame, Next, Parts, Reader, State};
use crate::selection::Selection;
use plain_model::{Items, MAX_NESTING, NoMemory, Text};
use std::alloc::Global;

fn no_parts(alloc: Global) -> Parts
    ensures { parts_of result ≡ no_parts }
{
    Parts {
        unions: Vec::new(alloc),
        boths: Vec::new(alloc),
    }
}

// A reader where a term begins.
fn before_term(parts: Parts, frames: Vec<Frame>) -> Reader
    ensures { reader_of result ≡ before_term (parts_of parts) (frames_of frames.items) }
{
    Reader {
        state: State::Inside(Place::Start),
        parts,
        frames,
    }
}

// A term with each `~` that is directly before it, and what is open around it.
#[tactic(auto, using(crate::proofs::Layers::layers, crate::proofs::Frames::frames_push))]
fn unwind(
    alloc: Global,
    term: Selection,
    mut frames: Vec<Frame>,
) -> Result<(Selection, Vec<Frame>), NoMemory>
    ensures term { IfOk result
        (λ made. plain_of made.0 ≡ negated (plain_of term) (frames_of frames.items)) }
    ensures frames { IfOk result (λ made. frames_of made.1.items ≡ around (frames_of frames.items)) }
{
    match frames.pop() {
        None => Ok((term, frames)),
        Some(Frame::Negation) => {
            let term = Selection::Not(Box::new(alloc, term)?);
            unwind(alloc, term, frames)
        }
        Some(Frame::Opened(function, outer)) => {
            frames.push(Frame::Opened(function, outer))?;
            Ok((term, frames))
        }
    }
}

// A closing parenthesis after a term.
#[tactic(auto, using(crate::proofs::Frames::frames_push))]
fn closed(
    alloc: Global,
    term: Selection,
    parts: Parts,
    mut frames: Vec<Frame>,
) -> Result<Next, NoMemory>
    ensures { IfOk result
        (λ next. next_of next ≡ closed (plain_of term) (parts_of parts) (frames_of frames.items)) }
{
    match frames.pop() {
        Some(Frame::Opened(function, outer)) => {
            let inner = whole(term, parts)?;
            let selection = called(alloc, function, inner)?;
            Ok(Next::Goes(Reader {
                state: State::After(0, selection),
                parts: outer,
                frames,
            }))
        }
        Some(Frame::Negation) => Ok(Next::Stops),
        None => Ok(Next::Stops),
    }
}

// A byte after a whole term.
#[tactic(auto, using(crate::proofs::Terms::terms), unfolding(crate::specs::Reading::after_term))]
fn after_term(
    alloc: Global,
    term: Selection,
    parts: Parts,
    frames: Vec<Frame>,
    byte: u8,
) -> Result<Next, NoMemory>
    ensures { IfOk result (λ next. next_of next
        ≡ after_term (plain_of term) (parts_of parts) (frames_of frames.items) byte) }
{
    if byte == b'&' {
        Ok(Next::Goes(before_term(with_term(term, parts)?, frames)))
    } else if byte == b'|' {
        Ok(Next::Goes(before_term(with_part(alloc, term, parts)?, frames)))
    } else if byte == b')' {
        closed(alloc, term, parts, frames)
    } else if byte == b' ' || byte == b'\t' {
        ended(term, parts, &frames)
    } else {
        Ok(Next::Stops)
    }
}

// With one term more, which `&` follows.
#[tactic(auto, using(crate::proofs::Terms::terms))]
fn with_term(term: Selection, mut parts: Parts) -> Result<Parts, NoMemory>
    ensures { IfOk result (λ made. parts_of made ≡ with_term (plain_of term) (parts_of parts)) }
{
    parts.boths.push(term)?;
    Ok(parts)
}

// With one part more, whose last term this is, and which `|` follows.
#[tactic(auto, using(crate::proofs::Terms::terms))]
fn with_part(alloc: Global, term: Selection, parts: Parts) -> Result<Parts, NoMemory>
    ensures { IfOk result (λ made. parts_of made ≡ with_part (plain_of term) (parts_of parts)) }
{
    let Parts { mut unions, boths } = parts;
    let part = both_of(boths, term)?;
    unions.push(part)?;
    Ok(Parts {
        unions,
        boths: Vec::new(alloc),
    })
}

// A blank, or the end, after a term.
#[tactic(auto, using(crate::proofs::Terms::terms))]
fn ended(term: Selection, parts: Parts, frames: &Vec<Frame>) -> Result<Next, NoMemory>
    ensures { IfOk result
        (λ next. next_of next ≡ ended (plain_of term) (parts_of parts) (frames_of frames.now.items)) }
{
    if frames.is_empty() {
        Ok(Next::Ends(whole(term, parts)?))
    } else {
        Ok(Next::Stops)
    }
}

// A byte after a primary with so many question marks.
fn after_near(
    alloc: Global,
    times: u64,
    primary: Selection,
    parts: Parts,
    frames: Vec<Frame>,
    byte: u8,
) -> Result<Next, NoMemory>
    requires { times + 1 < 2 ^ 64 }
    ensures { IfOk result (λ next. next_of next
        ≡ after_near (Some (times, plain_of primary)) (parts_of parts) (frames_of frames.items) byte) }
{
    if byte == b'?' {
        return Ok(Next::Goes(Reader {
            state: State::After(times + 1, primary),
            parts,
            frames,
        }));
    }
    let term = near(alloc, times, primary)?;
    let (term, frames) = unwind(alloc, term, frames)?;
    after_term(alloc, term, parts, frames, byte)
}

#[tactic(auto, using(crate::proofs::Terms::terms))]
fn has_room(frames: &Vec<Frame>) -> bool
    ensures { result ≡ has_room (frames_of frames.now.items) }
{
    (frames.len() as u64) < MAX_NESTING
}

// A byte inside a primary, which nests nothing.
fn within(
    alloc: Global,
    place: Place,
    parts: Parts,
    frames: Vec<Frame>,
    byte: u8,
) -> Result<Next, NoMemory>
    ensures { IfOk result (λ next. next_of next
        ≡ or_after (inside place byte) (Inside place) (parts_of parts) (frames_of frames.items) byte) }
{
    match inside(alloc, place, byte)? {
        Progress::Within(place) => Ok(Next::Goes(Reader {
            state: State::Inside(place),
            parts,
            frames,
        })),
        Progress::After(None) => Ok(Next::Stops),
        Progress::After(Some(primary)) => after_near(alloc, 0, primary, parts, frames, byte),
    }
}

// With one thing more that is open, a reader where a term begins.
#[tactic(auto, using(crate::proofs::Terms::terms))]
fn opened(frame: Frame, parts: Parts, mut frames: Vec<Frame>) -> Result<Next, NoMemory>
    ensures { IfOk result (λ next. next_of next
        ≡ Goes (before_term (parts_of parts) (frame_of frame ∷ frames_of frames.items))) }
{
    frames.push(frame)?;
    Ok(Next::Goes(before_term(parts, frames)))
}

// The first byte of a term.
#[tactic(auto, unfolding(crate::specs::Reading::step, crate::specs::Reading::nesting))]
fn at_start(alloc: Global, parts: Parts, frames: Vec<Frame>, byte: u8) -> Result<Next, NoMemory>
    ensures { IfOk result
        (λ next. next_of next ≡ step (before_term (parts_of parts) (frames_of frames.items)) byte) }
{
    let nests = byte == b'~' || byte == b'(' || byte == b'@';
    if nests && !has_room(&frames) {
        return Ok(Next::Stops);
    }
    if byte == b'~' {
        opened(Frame::Negation, parts, frames)
    } else if byte == b'(' {
        opened(Frame::Opened(None, parts), no_parts(alloc), frames)
    } else if byte == b'@' {
        Ok(Next::Goes(Reader {
            state: State::Inside(Place::InName(Items::empty(alloc))),
            parts,
            frames,
        }))
    } else {
        within(alloc, Place::Start, parts, frames, byte)
    }
}

// A byte in the name of a function.
#[tactic(auto, unfolding(crate::specs::Reading::step, crate::specs::Reading::nesting))]
fn at_name(
    alloc: Global,
    name: Text,
    parts: Parts,
    frames: Vec<Frame>,
    byte: u8,
) -> Result<Next, NoMemory>
    ensures { IfOk result (λ next. next_of next
        ≡ step (reader_at (InName name) (parts_of parts) (frames_of frames.items)) byte) }
{
    if byte != b'(' {
        return within(alloc, Place::InName(name), parts, frames, byte);
    }
    match Function::of(name.as_slice()) {
        Some(function) => opened(
            Frame::Opened(Some(function), parts),
            no_parts(alloc),
            frames,
        ),
        None => Ok(Next::Stops),
    }
}

// A byte inside a primary.
#[tactic(auto, unfolding(crate::specs::Reading::step, crate::specs::Reading::nesting))]
fn at_place(
    alloc: Global,
    place: Place,
    parts: Parts,
    frames: Vec<Frame>,
    byte: u8,
) -> Result<Next, NoMemory>
    ensures { IfOk result (λ next. next_of next
        ≡ step (reader_at place (parts_of parts) (frames_of frames.items)) byte) }
{
    match place {
        Place::Start => at_start(alloc, parts, frames, byte),
        Place::InName(name) => at_name(alloc, name, parts, frames, byte),
        place => within(alloc, place, parts, frames, byte),
    }
}

impl Reader {
    /// Before the first byte.
    pub fn new(alloc: Global) -> Reader
        ensures { reader_of result ≡ before_term no_parts [] }
    {
        before_term(no_parts(alloc), Vec::new(alloc))
    }

    /// Takes one byte more.
    #[tactic(auto, unfolding(crate::specs::Reading::step, crate::specs::Reading::nesting))]
    pub fn take(self, alloc: Global, byte: u8) -> Result<Next, NoMemory>
        requires { times_of (state_of self.state) + 1 < 2 ^ 64 }
        ensures { IfOk result (λ next. next_of next ≡ step (reader_of self) byte) }
    {
        let Reader {
            state,
            parts,
            frames,
        } = self;
        match state {
            State::Inside(place) => at_place(alloc, place, parts, frames, byte),
            State::After(times, primary) => after_near(alloc, times, primary, parts, frames, byte),
        }
    }
}
