// The count of steps, kept in the proof alone.
ghost use Rattle.std.specs.Prelude.{◌≡◌, ◌+◌, ◌<◌};

use std::marker::Model;
use std::sync::ledger::{Blank, Book, Ledger, Share};

/// How many steps were taken. It takes no bytes, and counting takes no time.
#[derive(Drop)]
pub struct Steps<L: Ledger> {
    book: Book<L>,
    share: Share<L>,
}

impl<L: Ledger> Model for Steps<L> {
    ghost use Rattle.std.specs.Prelude.{ℕ, ◌<◌};

    ghost Value = { ℕ };

    ghost view = { λ s. s.book.total };

    ghost invariant = { λ s. 0 < s.share.parts };
}

impl<L: Ledger> Steps<L> {
    /// No steps, in the ledger `L`. A function over `L: Ledger` takes the blank, as
    /// `Blank::new(1)`, with the same conditions; whoever calls it at `Brand` picks the ledger.
    pub fn new(blank: Blank) -> Steps<L>
        requires name { blank.name ≡ L.name }
        requires parts { blank.parts ≡ L.parts }
        requires open { 0 < blank.parts }
        ensures zero { result ≡ 0 }
    {
        let (book, share) = blank.open::<L>();
        Steps { book, share }
    }

    /// Counts so many steps more.
    pub fn tick(&mut self, count: u64)
        ensures total { self.new ≡ self.old + count }
    {
        self.book.add(&mut self.share, count);
    }
}
