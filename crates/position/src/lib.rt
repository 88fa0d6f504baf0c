// Latitudes and longitudes in steps, and in microdegrees.
#![tactic(auto)]

ghost use Rattle.std.specs.Prelude.{◌≡◌, true, ◌≤◌, ◌^◌, nat_abs};
ghost use Rattle.position.specs.Position.{latitude_sum, is_latitude, latitude_micro, longitude_sum, longitude_micro};
ghost use Rattle.position.specs.InnerHalf.{half_away};
ghost use Rattle.position.specs.InnerAlways.{is_always_latitude};

// Latitude steps, form SA32: each is 180/2^32 degrees. A sum of them may leave the 32 bits, so they are held in 64.
#[derive(Clone, Copy, Debug, PartialEq, Eq)]
pub struct Sa32(pub i64);

// Longitude steps, form BA32: each is 360/2^32 degrees.
#[derive(Clone, Copy, Debug, PartialEq, Eq)]
pub struct Ba32(pub u32);

// The steps of a latitude as a packet has it.
pub fn latitude_steps(x: i32) -> Sa32
    ensures { (result.0 ≡ x) × (nat_abs result.0 ≤ 2 ^ 31) }
{
    Sa32(i64::from(x))
}

// D32.4 times D10, plus D24.
pub fn latitude_sum(delta: i16, scale: Sa32, from: Sa32) -> Sa32
    requires { (nat_abs scale.0 ≤ 2 ^ 31) × (nat_abs from.0 ≤ 2 ^ 31) }
    ensures { result.0 ≡ latitude_sum delta scale.0 from.0 }
{
    Sa32(i64::from(delta) * scale.0 + from.0)
}

// Whether they lie from -2^31 to 2^31.
#[tactic(auto, unfolding(crate::specs::Position::is_latitude))]
pub fn is_latitude(x: Sa32) -> bool
    ensures { result ≡ is_latitude x.0 }
{
    (-2147483648..=2147483648).contains(&x.0)
}

// Whether every D32.4, times this D10, plus this D24, is a latitude: none is greater than 2^15 in size.
#[tactic(auto, unfolding(crate::specs::InnerAlways::is_always_latitude))]
pub fn is_always_latitude(scale: Sa32, from: Sa32) -> bool
    requires { (nat_abs scale.0 ≤ 2 ^ 31) × (nat_abs from.0 ≤ 2 ^ 31) }
    ensures { result ≡ is_always_latitude scale.0 from.0 }
{
    scale.0.unsigned_abs() * 32768 + from.0.unsigned_abs() <= 2147483648
}

// Half of 2^24, with the sign of y. The choice is between two numbers, so that no branch is taken.
#[tactic(auto, unfolding(crate::specs::InnerHalf::half_away))]
fn half(y: i64) -> i64
    ensures { result ≡ half_away y }
{
    if y < 0 { -8388608 } else { 8388608 }
}

pub fn latitude_micro(x: Sa32) -> i32
    requires { is_latitude x.0 ≡ true }
    ensures { result ≡ latitude_micro x.0 }
{
    let y = x.0 * 703125;
    ((y + half(y)) / 16777216) as i32
}

// D32.5 times D11, plus D25, reduced.
#[tactic(auto, unfolding(crate::specs::Position::longitude_sum, crate::specs::Position::reduced))]
pub fn longitude_sum(delta: i16, scale: Ba32, from: Ba32) -> Ba32
    ensures { result.0 ≡ longitude_sum delta scale.0 from.0 }
{
    let sum = i64::from(delta) * i64::from(scale.0) + i64::from(from.0);
    Ba32(sum.rem_euclid(4294967296) as u32)
}

#[tactic(auto, unfolding(crate::specs::Position::longitude_micro, crate::specs::Position::full_circle, crate::specs::Position::nearest))]
pub fn longitude_micro(x: Ba32) -> u32
    ensures { result ≡ longitude_micro x.0 }
{
    let m = (u64::from(x.0) * 703125 + 4194304) / 8388608;
    if m == 360000000 { 0 } else { m as u32 }
}
