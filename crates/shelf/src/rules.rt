ghost use Rattle.std.specs.Prelude.{◌≤◌};
ghost use Rattle.server_limits.specs.Limits.{most_fuel, most_life};

/// What the visits of one shelf run under.
#[derive(Clone, Copy, Debug, PartialEq, Eq)]
pub struct Rules {
    /// The number of the shelf, below `shelves`.
    pub number: u32,
    /// How many shelves there are, 1 to 16.
    pub shelves: u32,
    /// The most that a segment may cost, 1 to 10,000,000.
    pub fuel: u64,
    /// How long a page can be answered, 1 to 2,147,483,648 seconds.
    pub life: u64,
    /// The most live instances of the shelf, 1 to 4,096.
    pub instances: u32,
    /// The most pages of an instance, 1 to 1,024.
    pub pages: u32,
    ghost fuel_fits: { fuel ≤ most_fuel },
    ghost life_fits: { life ≤ most_life },
}
