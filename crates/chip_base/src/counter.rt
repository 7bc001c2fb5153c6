//! A counter of steps that takes no bytes and no time.
ghost use Rattle.std.specs.Prelude.{◌≡◌, ◌<◌, ◌+◌};

use std::marker::Model;
use std::sync::ledger::{Blank, Book, Ledger, Share};

/// How many steps were taken. It takes no bytes, only contracts see the number, and only `tick` changes it.
///
/// `C` is the ledger in which the steps stand: `Brand` where the counter is made, and any ledger for a function that is handed one.
#[derive(Drop)]
pub struct Steps<C: Ledger> {
    book: Book<C>,
    share: Share<C>,
}

impl<C: Ledger> Model for Steps<C> {
    ghost use Rattle.std.specs.Prelude.{ℕ, ◌<◌};

    ghost Value = { ℕ };

    ghost view = { λ s. s.book.total };

    ghost invariant = { λ s. 0 < s.share.parts };
}

impl<C: Ledger> Steps<C> {
    /// A counter that stands at 0, over a blank ledger with at least one part.
    pub fn new(blank: Blank) -> Steps<C>
        requires name { blank.name ≡ C.name }
        requires parts { blank.parts ≡ C.parts }
        requires one { 0 < blank.parts }
        ensures { result ≡ 0 }
    {
        let (book, share) = blank.open::<C>();
        Steps { book, share }
    }

    /// Counts one step.
    pub fn tick(&mut self)
        ensures { self.new ≡ self.old + 1 }
    {
        self.book.add(&mut self.share, 1);
    }
}
