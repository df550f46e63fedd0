//! Numbers that are drawn one after another.

ghost use Rattle.std.specs.Prelude.{◌≡◌, ◌<◌};
ghost use Rattle.nr_gen.specs.Draws.{drawn_of, next_number};

const MULTIPLIER: u64 = 6_364_136_223_846_793_005;

const INCREMENT: u64 = 1_442_695_040_888_963_407;

/// The number behind this one.
#[tactic(auto, unfolding(crate::specs::Draws::next_number))]
fn next_number(number: u64) -> u64
    ensures { result ≡ next_number number }
{
    number.wrapping_mul(MULTIPLIER).wrapping_add(INCREMENT)
}

/// A draw below the bound; it replaces the number by the one behind it.
#[tactic(auto, unfolding(crate::specs::Draws::drawn_of))]
pub(crate) fn draw(number: &mut u64, bound: u64) -> u64
    requires { 0 < bound }
    ensures drawn { result ≡ drawn_of bound (next_number number.old) }
    ensures within { result < bound }
    ensures next { number.new ≡ next_number number.old }
{
    let next = next_number(*number);
    *number = next;
    (next >> 33) % bound
}
