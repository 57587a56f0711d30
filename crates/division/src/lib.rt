// Nearest division by 255, by shifts and adds.
#![tactic(auto)]

ghost use Rattle.std.specs.Prelude.{◌≡◌, ◌≤◌};
ghost use Rattle.division.specs.Division.{shifted};

// The nearest whole number to n / 255, by shifts and adds. From 65,663 on it may be one too small, but it is never below 255, where
// sums are held (specs/Division). The sums of two products of bytes stay below 130,051.
pub fn div_255(n: u32) -> u32
    requires { n ≤ 130050 }
    ensures { result ≡ shifted n }
{
    let t = n + 128;
    (t + (t >> 8)) >> 8
}
