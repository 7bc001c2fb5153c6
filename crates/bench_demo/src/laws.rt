//! What holds of the demonstration's image.
ghost use Rattle.std.specs.Prelude.{◌≡◌, ℕ, length, None};
ghost use Rattle.bench_demo.specs.Demo.{demo_image, demo_settings};
ghost use Rattle.image_tool.specs.FirstFault.{image_fault};

/// The image that is made from a number has 8,204 bytes, and no fault where the demonstration's IMEM is the room.
pub fn of_the_image()
    ensures size { (seed : ℕ) → length (demo_image seed) ≡ 8204 }
    ensures faultless { (seed : ℕ) → image_fault demo_settings.imem (demo_image seed) ≡ None }
{}
