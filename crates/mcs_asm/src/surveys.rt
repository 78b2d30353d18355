//! The survey of a source text: the addresses and sizes of its lines, and the values of its names.
ghost use Rattle.std.specs.Prelude.{◌≡◌, map};

use crate::names::Names;
use mcs_source::survey::Span;
use std::marker::Model;

/// The address of each line of a text, the number of bytes that the line emits, and the names with
/// their values.
#[derive(Drop)]
pub struct Survey<'a> {
    spans: Vec<Span>,
    names: Names<'a>,
}

impl<'a> Model for Survey<'a> {
    ghost use Rattle.mcs_source.specs.Survey.{Survey};

    ghost Value = { Survey };

    ghost view = { λ s. record { spans = s.spans.items; names = s.names.names } };
}

impl<'a> Survey<'a> {
    pub(crate) fn new(spans: Vec<Span>, names: Names<'a>) -> Survey<'a>
        ensures { result ≡ record { spans = spans.items; names = names.entry.names } }
    {
        Survey { spans, names }
    }

    /// Returns the address and the size of each line, in line order.
    pub fn spans(&self) -> &[Span]
        ensures { result.now ≡ self.now.spans }
    {
        &self.spans
    }

    /// Returns the names and their values, in the order of the lines that define them.
    pub fn names(&self) -> &[(&'a [u8], u16)]
        ensures { map (λ e. (e.0.now, e.1)) result.now ≡ self.now.names }
    {
        self.names.list()
    }
}
