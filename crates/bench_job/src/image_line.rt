//! The line that tells an image.
ghost use Rattle.std.specs.Prelude.{◌≡◌, ◌≤◌, ◌%◌, length};
ghost use Rattle.bench_job.specs.Plans.{image_text, told_image};

use image_tool::sum;
use text_line::Line;

/// The line of an image with this payload.
#[tactic(auto, unfolding(crate::specs::Plans::image_text))]
fn payload_line(payload: &[u8]) -> Line
    requires { length payload.now % 4 ≡ 0 }
    ensures { result ≡ image_text payload.now }
{
    let checksum = sum(payload).wrapping_neg();
    let mut line = Line::new();
    line.push(b"image ");
    line.push_number(payload.len() as u64);
    line.push(b" ");
    line.push_word(checksum);
    line.push(b"\n");
    line
}

/// The line of an image: the length of its payload in bytes, and its checksum word.
pub fn image_line(image: &[u8]) -> Line
    requires headed { 12 ≤ length image.now }
    requires whole { length image.now % 4 ≡ 0 }
    ensures { result ≡ told_image image.now }
{
    payload_line(&image[12..])
}
