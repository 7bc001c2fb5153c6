//! Which lanes run together.
ghost use Rattle.std.specs.Prelude.{◌≡◌, ◌≤◌, ◌<◌, ◌+◌, List, IfSome, IsSomeAnd, Some, None, is_some, option_map, true, false, map, length, []};
ghost use Rattle.chip_base.specs.Groups.{AreNumbersOf, IsGrouping, Text, all_some, each_once, groups_of, named_groups, numbered, pieces, text_of};
ghost use Rattle.chip_base.specs.UnitTable.{lane_named};
ghost use Rattle.chip_base.specs.Placing.{none_yet, put, put_all, placed};

use crate::chip_unit::lane_named;

/// For each of the eight lanes (hub, uart0, uart1, spi, gpio, pwm, slink, wdt) the number of its group.
#[derive(Clone, Copy)]
pub struct Groups {
    pub of: [u8; 8],
}

/// Puts a lane into a group. None where there is no such lane, or where it stands in a group.
#[tactic(auto, using(crate::proofs::Places::placed_set))]
fn put_lane(group: u8, name: &str, mut places: [Option<u8>; 8]) -> Option<[Option<u8>; 8]>
    ensures value { result ≡ put group (lane_named name.now) places }
    ensures counts { IfSome result (λ p. placed p ≡ placed places + 1) }
{
    let lane = lane_named(name)?;
    match places[lane] {
        Some(_) => None,
        None => {
            places[lane] = Some(group);
            Some(places)
        }
    }
}

/// Puts the lanes of a group, whose names stand between commas, into it. None where one isn't a lane, or stands in a group.
fn put_group(group: u8, names: &str, mut places: [Option<u8>; 8]) -> Option<[Option<u8>; 8]>
    ensures value { result ≡ put_all (map (λ name. (name, group)) (pieces 44 names.now)) places }
    ensures counts { IfSome result (λ p. placed places < placed p) }
{
    for name in names.split(',') {
        places = put_lane(group, name, places)?;
    }
    Some(places)
}

/// The group of each lane, as far as they are named. None where the text isn't groups of lanes, or a lane stands twice.
#[tactic(auto, using(crate::proofs::Places::placed_most))]
fn read_places(text: &str) -> Option<[Option<u8>; 8]>
    ensures { result ≡ put_all (numbered 0 (named_groups text.now)) none_yet }
{
    let mut places: [Option<u8>; 8] = [None; 8];
    let mut group = 0;
    for names in text.split('/') {
        places = put_group(group, names, places)?;
        group += 1;
    }
    Some(places)
}

/// The groups, where each lane stands in one.
fn placed(places: [Option<u8>; 8]) -> Option<[u8; 8]>
    ensures { result ≡ all_some places }
{
    let [a, b, c, d, e, f, g, h] = places;
    Some([a?, b?, c?, d?, e?, f?, g?, h?])
}

/// The group of each lane. None where the text isn't groups of lanes in which each lane stands once.
#[tactic(auto, using(crate::proofs::Places::each_once_put))]
fn read_lanes(text: &str) -> Option<[u8; 8]>
    ensures { result ≡ each_once (numbered 0 (named_groups text.now)) }
{
    placed(read_places(text)?)
}

impl Groups {
    /// Reads how lanes are grouped: `all`, `each`, or groups separated by `/` with the names of lanes separated by `,`, where each
    /// lane stands once. Groups are numbered from 0 in the order of the text. None exactly where the text has none of these forms.
    pub fn read(text: &str) -> Option<Groups>
        ensures value { option_map (λ g. g.of) result ≡ groups_of text.now }
        // What a list of groups prints is read as these groups.
        ensures printed { (groups : List (List Text)) → IsGrouping groups → text.now ≡ text_of groups → IsSomeAnd result (λ g. AreNumbersOf groups g.of) }
    {
        let of = match text {
            "all" => [0; 8],
            "each" => [0, 1, 2, 3, 4, 5, 6, 7],
            _ => read_lanes(text)?,
        };
        Some(Groups { of })
    }
}
