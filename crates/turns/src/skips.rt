// Whole rounds that are skipped: the seconds of a round, how many there are in which no instance goes, and the timeouts after them.
ghost use Rattle.std.specs.Prelude.{◌≡◌, ℕ, ◌-◌, ◌*◌};
ghost use Rattle.model.specs.Advertising.{value_of};
ghost use Rattle.turns.specs.Walk.{Stays, Rounds, Capped, Most, whole, falls};

// The seconds of a whole round.
// Five summands written out: as `d.iter().map(..).sum()` the bound that `sum` asks for stays open.
pub fn whole(d: [u16; 5]) -> u32
    ensures { result ≡ whole d }
{
    u32::from(d[0]) + u32::from(d[1]) + u32::from(d[2]) + u32::from(d[3]) + u32::from(d[4])
}

// The most rounds, up to most, in which an instance of duration d with timeout t stays.
fn capped(d: u16, t: u16, most: u32) -> u32
    requires { d ≡ 0 → t ≡ 0 }
    ensures { Capped d t most result }
{
    if t == 0 {
        return most;
    }
    u32::from((t - 1) / d).min(most)
}

// The most rounds, up to most, in which no instance goes.
pub fn rounds(d: [u16; 5], t: [u16; 5], most: u32) -> u32
    requires { (k : ℕ) → value_of d k ≡ 0 → value_of t k ≡ 0 }
    ensures { Most d t most result }
{
    let mut r = most;
    for p in 0..5 {
        r = capped(d[p], t[p], r);
    }
    r
}

// A timeout t after r rounds with a turn of d seconds in each.
fn later(d: u16, t: u16, r: u32) -> u16
    requires { Stays (r * d) t }
    ensures { result ≡ t - r * d }
{
    if t == 0 {
        0
    } else {
        t - (r * u32::from(d)) as u16
    }
}

// The timeouts after r rounds.
pub fn falls(d: [u16; 5], t: [u16; 5], r: u32) -> [u16; 5]
    requires { Rounds r d t }
    ensures { result ≡ falls r d t }
{
    let mut fallen = t;
    for p in 0..5 {
        fallen[p] = later(d[p], t[p], r);
    }
    fallen
}
