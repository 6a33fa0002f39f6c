ghost use Rattle.std.specs.Prelude.{◌≡◌, true};
ghost use Rattle.venue.specs.Alike.{Alike, shown};

use market::orders::Listed;

/// Whether two listings are equally long and agree in side, rate and lots place by place.
pub fn alike(one: &[Listed], other: &[Listed]) -> bool
    ensures { (result ≡ true → Alike one.now other.now) × (Alike one.now other.now → result ≡ true) }
{
    if one.len() != other.len() {
        return false;
    }
    // By place: a rule of the project asks for the elements of one listing with their index beside the other.
    for (place, listed) in one.iter().enumerate() {
        if !shows_the_same(listed, &other[place]) {
            return false;
        }
    }
    true
}

fn shows_the_same(one: &Listed, other: &Listed) -> bool
    ensures { (result ≡ true → shown one.now ≡ shown other.now) × (shown one.now ≡ shown other.now → result ≡ true) }
{
    one.side == other.side && one.rate == other.rate && one.lots == other.lots
}
