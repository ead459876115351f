//! How many threads read at once.

ghost use Rattle.std.specs.Prelude.{◌≤◌};

#[derive(Clone, Copy)]
pub enum Crowd {
    One,
    Two,
    Four,
}

impl Crowd {
    // How many they are.
    pub fn threads(self) -> u8 {
        match self {
            Crowd::One => 1,
            Crowd::Two => 2,
            Crowd::Four => 4,
        }
    }

    // How many passes it takes, where those of its threads are so far apart.
    pub fn passes(self, apart: u16) -> u16
        requires { (1 ≤ apart) × (apart ≤ 256) }
        ensures { (1 ≤ result) × (result ≤ 1024) }
    {
        match self {
            Crowd::One => apart,
            Crowd::Two => 2 * apart,
            Crowd::Four => 4 * apart,
        }
    }
}
