// How many machines a fleet has. It is checked once, here, and the type carries it from then on.
ghost use Rattle.std.specs.Prelude.{◌≡◌, ◌≤◌, MatchOption};

// 1 to 9 machines, which are numbered from 1.
#[derive(Clone, Copy)]
pub struct FleetSize {
    pub machines: u8,
    ghost some: { 1 ≤ machines },
    ghost few: { machines ≤ 9 },
}

impl FleetSize {
    // The most machines that a fleet can have.
    pub const MOST: u8 = 9;

    // The size, or None where n is outside 1 to 9. There is one way to fail, so a TryFrom with an error of its own would say no more.
    pub fn new(n: u8) -> Option<FleetSize>
        ensures { MatchOption result (1 ≤ n → n ≤ 9 → ⊥) (λ size. size.machines ≡ n) }
    {
        if (1..=FleetSize::MOST).contains(&n) {
            Some(FleetSize { machines: n })
        } else {
            None
        }
    }
}
