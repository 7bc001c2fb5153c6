//! The mailbox that starts core 1.
ghost use Rattle.std.specs.Prelude.{◌≡◌, ◌≢◌, ℕ, true};
ghost use Rattle.chip_base.specs.UnitTable.{part_has};
ghost use Rattle.chip_base.specs.declared.chip_unit.HubPart.TheVariants as part;
ghost use Rattle.core_pair.specs.Mailbox.{mailbox_stored, mailbox_word, reset_mailbox};

use std::marker::Model;

/// Two words: where core 1 begins, at offset 0, and what its x2 holds then, at offset 4.
#[derive(Drop)]
pub struct Mailbox {
    pc: u32,
    sp: u32,
}

impl Model for Mailbox {
    ghost use Rattle.core_pair.specs.Mailbox.{MailboxState};

    ghost Value = { MailboxState };

    ghost view = { λ m. record { pc = m.pc; sp = m.sp } };
}

impl Mailbox {
    /// The mailbox at reset: both words are 0.
    pub fn new() -> Mailbox
        ensures { result ≡ reset_mailbox }
    {
        Mailbox { pc: 0, sp: 0 }
    }

    /// Where core 1 begins.
    pub fn pc(&self) -> u32
        ensures { result ≡ self.now.pc }
    {
        self.pc
    }

    /// What core 1's x2 holds as it begins.
    pub fn sp(&self) -> u32
        ensures { result ≡ self.now.sp }
    {
        self.sp
    }

    /// The word at an offset, in bytes.
    pub fn load(&self, offset: u32) -> u32
        requires { part_has part.Mailbox offset ≡ true }
        ensures { result ≡ mailbox_word self.now offset }
    {
        if offset == 0 { self.pc } else { self.sp }
    }

    /// Keeps a word at an offset, in bytes. The other word stays.
    pub fn store(&mut self, offset: u32, word: u32)
        requires { part_has part.Mailbox offset ≡ true }
        ensures state { self.new ≡ mailbox_stored self.old offset word }
        ensures own { mailbox_word self.new offset ≡ word }
        ensures others { (other : ℕ) → part_has part.Mailbox other ≡ true → offset ≢ other → mailbox_word self.new other ≡ mailbox_word self.old other }
    {
        if offset == 0 {
            self.pc = word;
        } else {
            self.sp = word;
        }
    }
}
