// The class of a sheet, by its longest edge, and what scanning it costs. Assumes nothing.
ghost use Rattle.std.specs.Prelude.{◌≡◌};
ghost use Rattle.estimate.specs.Prices.{class_of};

// The classes of sheets. Each border is the longer edge of a sheet of the A series: one of at most 420 mm is no longer than an A3.
#[derive(Clone, Copy, Debug, PartialEq, Eq)]
pub enum Class {
    A3,
    A2,
    A1,
    A0,
    Oversize,
}

// What a sheet of each class costs, in pence.
pub const PRICES: [u32; 5] = [650, 1100, 1400, 1850, 4200];

impl Class {
    // The class of a sheet by its longest edge in whole millimetres: none where the edge is 0, unmeasured.
    #[tactic(auto, unfolding(crate::specs::Prices::class_of))]
    pub fn of(edge: u16) -> Option<Self>
        ensures { result ≡ class_of edge }
    {
        match edge {
            0 => None,
            1..=420 => Some(Class::A3),
            421..=594 => Some(Class::A2),
            595..=841 => Some(Class::A1),
            842..=1189 => Some(Class::A0),
            1190.. => Some(Class::Oversize),
        }
    }
}
