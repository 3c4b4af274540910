//! Where the program's lines go.
ghost use Rattle.std.specs.Prelude.{true, [], Some};

use log::kv::Source;
use log::span::Spans;
use log::{Log, Metadata, Record};
use std::fmt::Display;

/// Writes each record's message to the standard error of `R`, behind the program's name. A line that cannot be written is
/// dropped.
#[derive(Clone, Copy, Debug, Drop)]
pub(crate) struct ErrorLines<R>(pub(crate) R);

impl<R: Eprint> Log for ErrorLines<R> {
    ghost enables = { λ _ _ _. Some true };

    ghost target_of = { λ _. Some [] };

    fn enabled(&self, _metadata: &Metadata<'_>) -> bool {
        true
    }

    fn log<D: Display, K: Source, S: Spans>(&self, record: &Record<'_, D, K, S>) {
        let _ = eprintln!(self.0; "green_server: {}", record.args());
    }

    fn flush(&self) {}

    fn target(&self) -> &str {
        ""
    }
}
