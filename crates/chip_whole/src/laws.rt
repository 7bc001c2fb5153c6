//! What holds of a chip however long it runs.
ghost use Rattle.std.specs.Prelude.{ℕ, List};
ghost use Rattle.chip_base.specs.Settings.{values_of};
ghost use Rattle.chip_base.specs.declared.boot.Boot.{Boot};
ghost use Rattle.chip_base.specs.declared.script.Script.{Script};
ghost use Rattle.chip_base.specs.declared.setup.Setup.{Setup};
ghost use Rattle.chip_whole.specs.Asked.{AsksOnce};
ghost use Rattle.chip_whole.specs.Chip.{Board, after, start};
ghost use Rattle.chip_whole.specs.Credits.{CreditsHold, LosesNone};
ghost use Rattle.chip_whole.specs.Order.{AreOrderedEvents, AreOrderedIssues};
ghost use Rattle.chip_whole.specs.Sent.{SendsInOrder};

/// In every state that a chip reaches from power-on, the sixteen credits of an open front are in the front, on its lines and in its
/// unit; so no unit loses a byte or a word but by a Reset. What each UART is given it sends, in order, but for what a Reset loses,
/// which is exactly what waits in the unit when it arrives. The part on the stream link was called once with each word that the link
/// told, in their order. And the events stand by cycle and then by unit, the issues by cycle and then by hart.
pub fn always()
    ensures credits { (board : Board) (s : Setup) (boot : Boot) (image : List ℕ) (script : Script) (n : ℕ) → CreditsHold (after board (start (values_of s) boot image script) n) }
    ensures none_lost { (board : Board) (s : Setup) (boot : Boot) (image : List ℕ) (script : Script) (n : ℕ) → LosesNone board (after board (start (values_of s) boot image script) n) }
    ensures sent { (board : Board) (s : Setup) (boot : Boot) (image : List ℕ) (script : Script) (n : ℕ) → SendsInOrder board (start (values_of s) boot image script) n }
    ensures asked { (board : Board) (s : Setup) (boot : Boot) (image : List ℕ) (script : Script) (n : ℕ) → AsksOnce (after board (start (values_of s) boot image script) n) }
    ensures order { (board : Board) (s : Setup) (boot : Boot) (image : List ℕ) (script : Script) (n : ℕ) → AreOrderedEvents n (after board (start (values_of s) boot image script) n).events }
    ensures issues { (board : Board) (s : Setup) (boot : Boot) (image : List ℕ) (script : Script) (n : ℕ) → AreOrderedIssues n (after board (start (values_of s) boot image script) n).issues }
{}
