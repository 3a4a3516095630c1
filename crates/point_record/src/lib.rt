// A supply point of a month file, 21 bytes; document 01, "Month file".
// The decoder and the encoder undo each other, and both refuse a slice of any other length.
#![tactic(auto)]

ghost use Rattle.std.specs.Prelude.{◌≡◌, ◌+◌, ◌*◌, ◌^◌, ◌<◌, get_or};
ghost use Rattle.quantity.specs.Quantity.{grains};
ghost use Rattle.quarter.specs.Reading.{band};
ghost use Rattle.record_fields.specs.Layout.{Small};
ghost use Rattle.point_record.specs.Point.{point_widths, point_values, place, point_of};
ghost use Rattle.point_record.specs.Point.{place_in_range, point_in_range, point_given, read_point};
ghost use Rattle.point_record.specs.Point.{encoded_point, counted, product};

use quantity::Grains;
use quarter::{Level, Tariffs, Transformer, tariffs_in_range};
use record_fields::{read_fields, write_fields};

// The widths of the fields: role, level, transformers, payment and billing tariff, penalty, and the
// four places of uk and Sn.
const WIDTHS: [usize; 14] = [1, 1, 3, 17, 17, 17, 12, 16, 12, 16, 12, 16, 12, 16];

// A supply point. Of its four places for transformers the first `transformers` are counted.
#[derive(Clone, Copy, Debug, PartialEq, Eq)]
pub struct Point {
    pub semi_active: bool,
    pub level: Level,
    pub transformers: u8,
    pub tariffs: Tariffs,
    pub first: Transformer,
    pub second: Transformer,
    pub third: Transformer,
    pub fourth: Transformer,
}

// The band of a point: uk times Sn summed over the counted transformers, in grains.
pub fn band(point: Point) -> Grains
    ensures { result ≡ grains (band (counted point)) }
{
    let n = point.transformers;
    let first = product(0 < n, point.first);
    let second = product(1 < n, point.second);
    let third = product(2 < n, point.third);
    let fourth = product(3 < n, point.fourth);
    Grains::of(first + second + third + fourth)
}

// uk times Sn of a place that is counted; 0 of one that is not.
fn product(counts: bool, place: Transformer) -> u64
    ensures value { result ≡ product counts place }
    ensures upper_bound { result < 2 ^ 32 }
{
    if !counts {
        return 0;
    }
    (place.uk as u64) * (place.sn as u64)
}

// Whether each field is in its range, and the fields agree with each other.
pub fn point_in_range(point: Point) -> bool
    ensures { result ≡ point_in_range point }
{
    let n = point.transformers;
    let semi_active = point.semi_active;
    (semi_active & (1 <= n) & (n <= 4) | !semi_active & (n == 0))
        & tariffs_in_range(semi_active, point.tariffs)
        & place_in_range(0 < n, point.first)
        & place_in_range(1 < n, point.second)
        & place_in_range(2 < n, point.third)
        & place_in_range(3 < n, point.fourth)
}

// Whether a place that is counted is in its range, and any other is all zero.
fn place_in_range(counts: bool, place: Transformer) -> bool
    ensures { result ≡ place_in_range counts place }
{
    counts & (1 <= place.uk) & (place.uk <= 4_000) & (1 <= place.sn) & (place.sn <= 20_000)
        | !counts & (place.uk == 0) & (place.sn == 0)
}

// The point that the bytes hold; none where they are refused.
pub fn decode_point(bytes: &[u8]) -> Option<Point>
    ensures { point_given result ≡ read_point bytes.now }
{
    if bytes.len() != 21 {
        return None;
    }
    let mut values = [0u64; 14];
    read_fields(bytes, &WIDTHS, &mut values);
    let point = point_of(values);
    if point_in_range(point) {
        return Some(point);
    }
    None
}

// The point that fields with these values make.
fn point_of(values: [u64; 14]) -> Point
    requires { Small point_widths values }
    ensures { result ≡ point_of values }
{
    let transformers = values[2] as u8;
    let payment = values[3] as u32;
    let billing = values[4] as u32;
    let penalty = values[5] as u32;
    let tariffs = Tariffs {
        payment,
        billing,
        penalty,
    };
    Point {
        semi_active: values[0] == 1,
        level: Level::from(values[1]),
        transformers,
        tariffs,
        first: place_of(values, 6),
        second: place_of(values, 8),
        third: place_of(values, 10),
        fourth: place_of(values, 12),
    }
}

// The transformer whose uk is the value number `at`, and whose Sn is the next one.
fn place_of(values: [u64; 14], at: usize) -> Transformer
    requires at_bound { at < 13 }
    requires uk_fits { get_or values at 0 < 2 ^ 12 }
    requires sn_fits { get_or values (at + 1) 0 < 2 ^ 16 }
    ensures { result ≡ place (get_or values at 0) (get_or values (at + 1) 0) }
{
    let uk = values[at] as u16;
    let sn = values[at + 1] as u16;
    Transformer { uk, sn }
}

// Writes the point into 21 bytes; or answers false, and leaves the bytes as they are, where a field
// breaks a rule or there are not 21 bytes.
// A bool and no Result: there is nothing to hand back but whether it was written.
pub fn encode_point(point: Point, bytes: &mut [u8]) -> bool
    ensures { (result, bytes.new) ≡ encoded_point point bytes.old }
{
    if !((bytes.len() == 21) & point_in_range(point)) {
        return false;
    }
    let values = point_values(point);
    write_fields(bytes, &WIDTHS, &values);
    true
}

// The values of a point's fields.
fn point_values(point: Point) -> [u64; 14]
    ensures { result ≡ point_values point }
{
    let level = point.level;
    [
        point.semi_active as u64,
        u64::from(level),
        point.transformers as u64,
        point.tariffs.payment as u64,
        point.tariffs.billing as u64,
        point.tariffs.penalty as u64,
        point.first.uk as u64,
        point.first.sn as u64,
        point.second.uk as u64,
        point.second.sn as u64,
        point.third.uk as u64,
        point.third.sn as u64,
        point.fourth.uk as u64,
        point.fourth.sn as u64,
    ]
}
