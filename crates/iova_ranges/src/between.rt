//! Spans whose ends are known to be in order.

ghost use Rattle.std.specs.Prelude.{◌≡◌, ◌≤◌};

use iofd_words::Span;

/// The span from `first` to `last`.
pub fn between(first: u64, last: u64) -> Span
    requires { first ≤ last }
    ensures { result ≡ record { first = first; last = last } }
{
    Span::new(first, last).unwrap()
}
