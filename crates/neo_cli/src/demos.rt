//! The demonstration, by its words.

use crate::given::{answers, shelf_of};
use std::alloc::{AllocError, Global};
use std::thread::Threads;

const SEVEN: &str = "demo 7
image 8204
serial 20
sum 53fc2a98
boot handover 164896
end
";

const LARGEST: &str = "demo 4294967295
image 8204
serial 20
sum f2569a18
boot handover 164896
end
";

/// Whether a call without files answers with this status and text.
fn demonstrates<R: Threads + Sync>(
    rt: &R,
    alloc: Global,
    words: &str,
    status: u8,
    text: &str,
) -> Result<bool, AllocError> {
    let mut shelf = shelf_of(alloc, &[], 0, 0)?;
    answers(rt, alloc, words, &mut shelf, 0, status, text)
}

/// Words, the status and the text.
const DEMONSTRATIONS: &[(&str, u8, &str)] = &[
    ("demo 7", 0, SEVEN),
    ("demo 007", 0, SEVEN),
    ("demo 4294967295", 0, LARGEST),
    ("demo", 2, "error usage\n"),
    ("demo 4294967296", 2, "error usage\n"),
    ("demo 00000000007", 2, "error usage\n"),
    ("demo 7 8", 2, "error usage\n"),
    ("demo 7 --boot raw", 2, "error usage\n"),
];

#[test]
fn runs_the_demonstration(rt: HostRuntime) -> Result<(), AllocError> {
    for &(words, status, text) in DEMONSTRATIONS {
        assert!(&rt;
            demonstrates(&rt, rt.alloc(), words, status, text)?,
            "{words}"
        );
    }
    Ok(())
}

/// Words of the same demonstration, with groups.
const GROUPED: &[&str] = &[
    "demo --groups hub,spi,gpio,slink/uart0,uart1,pwm/wdt 0000000007",
    "demo 7 --groups all",
    "demo 7 --groups each",
];

#[test]
fn runs_the_demonstration_in_groups(rt: HostRuntime) -> Result<(), AllocError> {
    for words in GROUPED {
        assert!(&rt; demonstrates(&rt, rt.alloc(), words, 0, SEVEN)?, "{words}");
    }
    Ok(())
}
