//! The choice of the part that a stream link is fitted with.
ghost use Rattle.std.specs.Prelude.{◌≡◌, map, option_map};
ghost use Rattle.bench_parts.specs.Attached.{attached};

use crate::part::{NamedPart, Part};

/// The part of this name, the first where several have it, and none without a name. The other parts are dropped. It takes no memory.
pub fn attach(parts: Vec<NamedPart>, name: Option<&str>) -> Option<Box<dyn Part + Send>>
    ensures { option_map (λ b. behave b) result ≡ attached (map (λ p. record { name = p.name; behave = behave p.part }) parts.items)
        (option_map (λ s. s.now) name.entry) }
{
    let name = name?;
    for named in parts {
        if named.is_named(name) {
            return Some(named.part);
        }
    }
    None
}
