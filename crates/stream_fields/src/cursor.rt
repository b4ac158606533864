//! A place in a stream that goes on line by line and block by block.
ghost use Rattle.std.specs.Prelude.{◌≡◌, ◌-◌, ◌≤◌, OnErr, IfSome, IfNone, option_map, length};
ghost use Rattle.plain_model.specs.Fields.{block_in};
ghost use Rattle.plain_model.specs.Parts.{line_at};
ghost use Rattle.stream_fields.specs.Answers.{Gives};
ghost use Rattle.stream_fields.specs.Cursors.{Position, rest, number_at};

use crate::data::block_end;
use crate::fault::FieldFault;
use crate::lines::{count_line_ends, first_line, skip_line_feed};
use plain_model::{Items, Text};
use std::alloc::Global;
use std::marker::Model;

/// A place in the bytes of a stream. Lines are numbered from 1: the number of a line is one more than the number of
/// LFs before its first byte.
#[derive(Drop)]
pub struct Cursor<'a> {
    text: &'a [u8],
    at: usize,
    // The LFs that are before the place.
    ends: u64,
    number: u64,
}

impl<'a> Model for Cursor<'a> {
    ghost use Rattle.std.specs.Prelude.{◌≡◌, ◌≤◌, length, count_by, take};
    ghost use Rattle.plain_model.specs.Parts.{is_lf};
    ghost use Rattle.stream_fields.specs.Cursors.{Position};

    ghost Value = { Position };

    ghost view = { λ c. record { text = c.text.now; at = c.at; number = c.number } };

    ghost invariant = { λ c. (c.at ≤ length c.text.now) × (c.ends ≡ count_by is_lf (take c.at c.text.now)) };
}

impl<'a> Cursor<'a> {
    /// The place before the first byte.
    pub fn new(text: &'a [u8]) -> Cursor<'a>
        ensures { result ≡ record { text = text.now; at = 0; number = 0 } }
    {
        Cursor {
            text,
            at: 0,
            ends: 0,
            number: 0,
        }
    }

    /// The number of the line that was given last, or 0 before the first.
    pub fn number(&self) -> u64
        ensures { result ≡ self.now.number }
    {
        self.number
    }

    // Goes on to the place before so many last bytes.
    fn go_before(&mut self, left: usize)
        requires { left ≤ length (rest self.old) }
        ensures text { self.new.text ≡ self.old.text }
        ensures at { self.new.at ≡ length self.old.text - left }
        ensures number { self.new.number ≡ self.old.number }
    {
        let at = self.text.len() - left;
        self.ends += count_line_ends(&self.text[self.at..at]) as u64;
        self.at = at;
    }

    /// The next line without its LF, comment lines included; none at the end of the bytes.
    pub fn line(&mut self) -> Option<&'a [u8]>
        ensures line { option_map (λ line. (line.now, rest self.new)) result
            ≡ line_at (rest self.old) }
        ensures number { IfSome result
            (λ line. self.new.number ≡ number_at self.old.text self.old.at) }
        ensures text { self.new.text ≡ self.old.text }
        ensures end { IfNone result (self.new ≡ self.old) }
    {
        let text = self.text;
        let (line, after) = first_line(&text[self.at..])?;
        self.number = self.ends + 1;
        self.go_before(after.len());
        Some(line)
    }

    /// The bytes of the block after a line of data, and the one LF that may follow is passed over. The head is that
    /// line; a line that is none, or bytes that aren't there, are a defect.
    #[tactic(auto, unfolding(plain_model::specs::Fields::block_in))]
    pub fn block(&mut self, alloc: Global, head: &[u8]) -> Result<Text, FieldFault>
        ensures value { Gives (λ bytes. (bytes, rest self.new)) result
            (block_in head.now (rest self.old)) }
        ensures number { self.new.number ≡ self.old.number }
        ensures text { self.new.text ≡ self.old.text }
        ensures err { OnErr result (self.new ≡ self.old) }
    {
        let text = &self.text[self.at..];
        let (size, end) = block_end(head, text)?;
        let bytes = Items::of(alloc, &text[..size])?;
        let left = skip_line_feed(&text[end..]).len();
        self.go_before(left);
        Ok(bytes)
    }
}
