//! The lines of a session. Each is one call of the sink, and none takes memory.
ghost use Rattle.std.specs.Prelude.{◌≡◌, ◌+◌, ◌≤◌, ◌<◌, ◌++◌, length};
ghost use Rattle.trace_text.specs.Instruction.{last_digits};
ghost use Rattle.bench_debug.specs.Session.{at_text, csr_text, reason_text, stop_text, word_or_none, mem_text};

use crate::stop::Stop;
use text_line::Line;

#[tactic(auto, unfolding(crate::specs::Session::at_text))]
pub(crate) fn at_line(cycle: u64) -> Line
    ensures { result ≡ at_text cycle }
{
    let mut line = Line::new();
    line.push(b"at ");
    line.push_number(cycle);
    line.push(b"\n");
    line
}

/// Appends why a run ends.
#[tactic(auto, unfolding(crate::specs::Session::reason_text))]
fn push_reason(line: &mut Line, stop: Stop)
    requires { length line.old + 36 ≤ 128 }
    ensures text { line.new ≡ line.old ++ reason_text stop }
    ensures len { length line.new ≤ length line.old + 35 }
{
    match stop {
        Stop::Bound => line.push(b"bound"),
        Stop::Break { hart, at } => {
            line.push(b"break ");
            line.push_number(u64::from(hart));
            line.push(b" ");
            line.push_word(at);
        }
        Stop::Watch { at } => {
            line.push(b"watch ");
            line.push_word(at);
        }
    }
}

#[tactic(auto, unfolding(crate::specs::Session::stop_text))]
pub(crate) fn stop_line(cycle: u64, stop: Stop) -> Line
    ensures { result ≡ stop_text cycle stop }
{
    let mut line = Line::new();
    line.push(b"stop ");
    line.push_number(cycle);
    line.push(b" ");
    push_reason(&mut line, stop);
    line.push(b"\n");
    line
}

/// Appends a word, or `none`.
fn push_value(line: &mut Line, value: Option<u32>)
    requires { length line.old + 8 ≤ 128 }
    ensures text { line.new ≡ line.old ++ word_or_none value }
    ensures len { length line.new ≤ length line.old + 8 }
{
    match value {
        Some(word) => line.push_word(word),
        None => line.push(b"none"),
    }
}

/// Appends the three digits of a CSR's address.
#[tactic(auto, unfolding(trace_text::specs::Instruction::last_digits))]
fn push_csr_address(line: &mut Line, addr: u16)
    requires { length line.old + 3 ≤ 128 }
    ensures text { line.new ≡ line.old ++ last_digits 3 addr }
    ensures len { length line.new ≡ length line.old + 3 }
{
    let mut digits = [0; 8];
    hex::encode_to_slice(u32::from(addr).to_be_bytes(), &mut digits).unwrap();
    line.push(&digits[5..]);
}

#[tactic(auto, unfolding(crate::specs::Session::csr_text))]
pub(crate) fn csr_line(hart: u8, addr: u16, value: Option<u32>) -> Line
    ensures { result ≡ csr_text hart addr value }
{
    let mut line = Line::new();
    line.push(b"csr ");
    line.push_number(u64::from(hart));
    line.push(b" ");
    push_csr_address(&mut line, addr);
    line.push(b" ");
    push_value(&mut line, value);
    line.push(b"\n");
    line
}

#[tactic(auto, unfolding(crate::specs::Session::mem_text))]
pub(crate) fn word_line(address: u32, value: Option<u32>) -> Line
    ensures { result ≡ mem_text address value }
{
    let mut line = Line::new();
    line.push(b"word ");
    line.push_word(address);
    line.push(b" ");
    push_value(&mut line, value);
    line.push(b"\n");
    line
}
